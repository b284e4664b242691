//! A lock round a value whose journal only grows. Threads go through it with passes, each of which
//! knows how much of the journal it has seen and how many entries were added through it.
#![tactic(auto)]

mod journaled;
mod lock;
mod pass;
mod seats;
mod steps;
mod turns;
mod view;

pub use journaled::Journaled;
pub use lock::Growing;
pub use pass::Pass;
pub use view::{Grows, View};
