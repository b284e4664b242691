//! Quiescence: what holds in every state of every uncrashed run of a topology's tasks, and what holds once nothing waits.
//!
//! Laws alone: each public function has an empty body, and its contract is the law.
#![tactic(auto)]

mod groups;
mod joins;
mod rest;
mod streams;
mod tables;
mod windows;

pub use groups::table_groups_are_sums;
pub use joins::join_of_one_key_rests;
pub use rest::plain_tables_rest;
pub use streams::stream_groups_are_whole;
pub use tables::{derived_tables_follow, source_tables_are_latest};
pub use windows::{
    late_pairs_are_the_late_count, window_pairs_are_few, windows_are_at_most_the_query,
    windows_are_whole, windows_rest,
};
