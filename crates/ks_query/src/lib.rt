//! The query of a topology over whole lists of records, and the text of its tables.
#![tactic(auto)]

mod laws;
mod printing;
mod table;

pub use laws::{
    groups_are_of_their_rows, rows_are_joined, rows_are_mapped, tables_are_last_values,
};
pub use printing::{print_head, print_rows, printed};
pub use table::{Table, TableRow};
