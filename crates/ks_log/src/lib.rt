//! The log: partitions of slots in memory. Beside its slots a partition keeps which of them readers get, up to the last
//! stable offset, its markers, and how many records each producer sent in each epoch.
#![tactic(auto)]

mod append;
mod counts;
mod log;
mod marks;
mod part;
mod reading;
mod seats;

pub use append::{Batch, copy};
pub use log::{Log, Written};
pub use part::{OutOfSequence, Part};
pub use reading::ends_in;
