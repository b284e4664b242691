//! The requests of a cluster, their replies, and what a history of them is: types and definitions that every layer above
//! speaks of, and laws about them. No program code.
#![tactic(auto)]

mod journal;
pub mod laws;
mod partition;
mod transaction;

pub use journal::{Entry, Journal, Reply, Request, Status};
pub use partition::Slot;
pub use transaction::{Pending, Producer, Transaction};
