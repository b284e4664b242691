//! The end of a run: what its workers have left is brought to rest, and told.
#![tactic(auto)]

mod answer;
mod ending;
mod tail;
mod telling;

pub use answer::Answer;
pub use ending::{end_undrained, end_whole};
pub use tail::Tail;
