//! What a run begins with: its topology, the placing that its settings ask for, and the feed, which reads the job on and produces each of
//! its records.
#![tactic(auto)]

mod building;
mod feeding;
mod passes;
mod placing;
mod producing;

pub use building::build_topology;
pub use feeding::{JobFeed, JobInput, feed};
pub use passes::split_first;
pub use placing::placing_of;
pub use producing::{counts_of, produce_all};
