//! What each producer has put into its undecided transaction, kept along a journal: the tasks that its appends named, the offsets that it
//! sent, the records that it appended (KIP-98, KIP-447).
#![tactic(auto)]

mod account;
pub mod laws;
mod ledger;

pub use account::{Account, Open, Sent};
pub use ledger::{is_named, is_open_in, new_ledger, note, pending_for};
