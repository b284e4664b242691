//! The entries of a journal, tried on a cluster one after another: whether a request meets its conditions, and whether the reply is that
//! of the step.
#![tactic(auto)]

mod conditions;
pub mod laws;
mod replaying;
mod replies;

pub use conditions::Conditions;
pub use replaying::replay_entry;
