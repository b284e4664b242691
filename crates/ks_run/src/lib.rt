//! One run: from the bytes of a job to the bytes of its tables, and the journal that the run kept.
#![tactic(auto)]

mod command;
mod loading;
mod outcome;
mod runs;
mod settling;
mod wanted;

pub use command::top;
pub use runs::{Ended, run_asked, run_job};
