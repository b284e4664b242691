//! The words of a command line: which command they name, and how it is to run.
#![tactic(auto)]

mod command;
mod load;
mod parser;
mod settings;
mod words;

pub use command::Command;
pub use load::{LoadRecord, Section, load_job};
pub use settings::Settings;
pub use words::read_words;
