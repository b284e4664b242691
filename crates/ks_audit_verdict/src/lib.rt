//! What the command `audit` answers: the faults of an output, their texts, what each says of the bytes, and the law that what a settled run
//! prints has none.
#![tactic(auto)]

mod fault;
mod texts;

pub use fault::{OutputFault, journal_fault};
pub use texts::{print_no, print_yes};
