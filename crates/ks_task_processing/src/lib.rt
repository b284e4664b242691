//! What the nodes of a task make of a record in one step, as a trait: a task takes records by it, and knows none of the nodes' code.
#![tactic(auto)]

mod partition;
mod processing;

pub use partition::part_for;
pub use processing::Processing;
