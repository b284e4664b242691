//! A store that was restored: the records of its changelog wait beside its table until it is written.
#![tactic(auto)]

mod laying;
mod restoring;
mod waiting;

pub use restoring::RestoringStore;
