//! The text of a journal, and the law that each line tells its entry.
#![tactic(auto)]

mod fields;
pub mod laws;
mod printing;
mod replies;
mod requests;
mod values;

pub use printing::{journal_text, push_journal};
