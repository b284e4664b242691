//! What the processor nodes of a task make of a record: one whole step, in which each node acts once, in list order, at the record's key
//! alone (Kafka Streams developer guide, "Stream partitions and tasks": a task takes one record at a time through its whole subtopology).
#![tactic(auto)]

mod counts;
mod foreign;
mod processing;
mod sends;
mod steps;
mod streams;

pub use steps::StepsBy;
