//! The group of a cluster's workers: its members and its generation, where the tasks stand, the positions that workers hold, what
//! their producers have pending, and what was committed.
#![tactic(auto)]

mod committed;
mod group;
mod held;
mod pending;
mod places;

pub use committed::TaskInputs;
pub use group::{Group, copy_assignment, copy_held};
pub use pending::new_pending;
