//! Quiescence of joins on a foreign key, and of all tables of a topology.
//!
//! Laws alone: each public function has an empty body, and its contract is the law.
#![tactic(auto)]

mod joins;
mod states;
mod tables;
mod windows;

pub use joins::joins_rest;
pub use states::{join_messages_stand, joins_in_each_state};
pub use tables::tables_rest;
pub use windows::window_counts_rest;
