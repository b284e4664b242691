//! The workers of a run, on threads round one shared cluster.
#![tactic(auto)]

mod asking;
mod beside;
mod boxed_gate;
mod closing;
mod enlisting;
mod workers;
mod working;

pub use closing::WorkEnd;
pub use workers::{Asked, RunWorkers, run_workers};
