//! A run's question: whether it can be asked, its last answer, and the lines of its answers.
#![tactic(auto)]

mod last;
mod printing;
mod question;

pub use last::answer_last;
pub use printing::{print_bad_ask, push_answers};
pub use question::bad_ask;
