//! Interactive reads: the value of a store at a position of its changelog, read from a replica (KIP-535).
#![tactic(auto)]

mod answer;
mod ask;
mod fault;
mod feeding;
mod laws;
mod lent_store;
mod place;
mod reader;

pub use answer::Answer;
pub use ask::Ask;
pub use fault::IqFault;
pub use laws::reads_last;
pub use lent_store::{active, stale};
pub use place::{Place, find_place};
pub use reader::Reader;
