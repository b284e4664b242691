//! The lines of printed tables, read back.
#![tactic(auto)]

mod heads;
mod lines;
mod values;

pub use heads::read_head;
pub use lines::is_row_line;
