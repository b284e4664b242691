//! What a producer has put into its undecided transaction.
use ks_history::Pending;
use ks_record::{PartId, Seq, SharedRecords, TaskId};

/// Records that an accepted append put into a partition, the first of them at this offset.
#[derive(Drop)]
pub struct Sent {
    pub task: TaskId,
    pub part: PartId,
    pub first: u64,
    pub recs: SharedRecords,
}

/// An undecided transaction.
#[derive(Drop)]
pub struct Open {
    /// The tasks that its appends named.
    pub tasks: Seq<TaskId>,
    /// The offsets that were sent; of a task the last count.
    pub pending: Seq<Pending>,
    pub sent: Seq<Sent>,
}

/// A producer's epoch, and its undecided transaction.
#[derive(Drop)]
pub struct Account {
    pub epoch: u64,
    pub undecided: Option<Open>,
}
