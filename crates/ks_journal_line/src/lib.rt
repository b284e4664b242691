//! The lines of a journal, read back to their entries.
#![tactic(auto)]

mod fits;
mod line;
mod reading;
mod replies;
mod values;

pub use line::read_line;
