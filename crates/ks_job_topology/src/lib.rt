//! The topology's line of a job, once JSON has read it: the topology, or the first thing that is wrong.
#![tactic(auto)]

mod expr;
mod field;
mod foreign;
mod labels;
mod node;
mod pred;
mod set;
mod stated;
mod topology;

pub use expr::read_limited;
pub use foreign::read_fk;
pub use pred::read_where;
pub use topology::{copy_names, read_topology};
