//! What a run writes: its tables, or that there are none, and the writing of a text to a sink.
#![tactic(auto)]

mod printing;
mod writing;

pub use printing::{print_bad_words, print_collision, print_late, print_read_fault, print_settled};
pub use writing::write_output;
