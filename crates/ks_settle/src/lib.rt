//! A cluster is brought to rest, and the tables that a topology prints are read from its changelogs.
#![tactic(auto)]

mod committed;
mod draining;
mod merging;
mod node_tables;
mod picking;
mod reading;
mod removing;
mod restoring;
pub mod rows;
mod windows;

pub use draining::drain;
pub use node_tables::tables;
pub use restoring::replica_at_ends;
