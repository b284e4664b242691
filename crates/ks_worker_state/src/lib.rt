//! What a worker keeps of its tasks and replicas, and how it feeds, restores and reads them.
#![tactic(auto)]

mod feeding;
pub mod laws;
mod reading;
mod restoring;
mod state;
mod topics;

pub use feeding::{feed_from, feed_once, feed_to_ends};
pub use reading::read_once;
pub use restoring::restore;
pub use state::WorkerState;
pub use topics::{changelogs_in, inputs_in};
