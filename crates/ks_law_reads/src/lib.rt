//! Reads at a position of a changelog's partition: that a replica gives them, and that they last.
#![tactic(auto)]

mod laws;

pub use laws::{reads_last, replica_reads};
