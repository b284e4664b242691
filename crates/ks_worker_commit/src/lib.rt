//! A worker's commit among others, through the lock round the cluster (KIP-98, KIP-447; Kafka Streams:
//! StreamsProducer).
#![tactic(auto)]

mod committing;
mod ends;
mod halt;
mod outcome;
mod outputs;
mod requests;
mod sending;

pub use committing::commit;
pub use ends::ends_of_task;
pub use outcome::Outcome;
