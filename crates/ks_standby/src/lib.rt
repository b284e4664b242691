//! Standby replicas (KIP-441): the stores of a task, kept ready from its changelogs, and the shelf on which the workers of an instance
//! leave them for one another.
#![tactic(auto)]

mod changelogs;
mod parked;
mod replica;

pub use changelogs::{new_changelogs, position_in_changelog};
pub use parked::Parked;
pub use replica::Replica;
