//! A worker's client of a shared cluster: its pass through the lock, and its gate, which may cut it off before each call.
#![tactic(auto)]

mod batch;
mod client;
mod committing;
mod halt;
mod member;
mod reading;
mod session;
mod shelving;
mod turn_gate;
mod writing;

pub use batch::BatchHeader;
pub use client::ClusterClient;
pub use halt::{Halt, or_halt};
pub use member::Member;
pub use session::Session;
pub use turn_gate::TurnGate;
