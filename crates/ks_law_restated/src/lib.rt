//! Definitions said once more in other words, each a law over every value.
#![tactic(auto)]

pub mod late_pairs;
pub mod subtopologies;
