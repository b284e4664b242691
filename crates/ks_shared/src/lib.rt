//! A cluster under a lock: threads use it one at a time, each call is one step of its journal.
#![tactic(auto)]

mod barred;
mod own;
mod shared;
mod state;
mod touched;

pub use barred::Barred;
pub use shared::Shared;
pub use state::{Frame, SharedState};
