//! The act by which a worker commits its tasks (KIP-447; Kafka Streams: a TaskManager's commit, with exactly-once semantics).
mod commit_end;
mod committed;
mod committing;
mod dropping;
mod freezing;

pub use commit_end::CommitEnd;
pub use committing::commit_tasks;
