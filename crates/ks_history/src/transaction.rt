//! Producers and their transactions.
use ks_record::{Marker, PartId, Seq, TaskId};

/// The offsets that a transaction would commit for a task.
#[derive(Drop)]
pub struct Pending {
    pub task: TaskId,
    /// For each input topic, the offset up to which records were taken.
    pub offsets: Seq<(u16, u64)>,
    /// In which order they were taken: runs of a topic and a count.
    pub order: Seq<(u16, u64)>,
    /// How many pairs of record and window were late.
    pub late: u64,
}

/// An undecided transaction.
#[derive(Drop)]
pub struct Transaction {
    /// Its partitions, rising.
    pub parts: Seq<PartId>,
    /// The tasks that its appends named.
    pub tasks: Seq<TaskId>,
    /// At most one of a task, in order of tasks.
    pub pending: Seq<Pending>,
}

/// A producer as the coordinator knows it.
#[derive(Drop)]
pub struct Producer {
    pub epoch: u64,
    pub undecided: Option<Transaction>,
    /// How the last transaction of this epoch was decided.
    pub last: Option<bool>,
    /// The markers that are not written yet.
    pub waiting: Seq<Marker>,
}
