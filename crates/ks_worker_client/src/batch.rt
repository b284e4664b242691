//! What a batch of records is sent with.
use ks_record::{PartId, TaskId};

/// The header of a batch of records: whose they are, where they go, and how many were sent there before (KIP-98: sequence numbers).
#[derive(Clone, Copy, PartialEq, Eq)]
pub struct BatchHeader {
    /// The task that made the records.
    pub task: TaskId,
    /// The partition that they are appended to.
    pub part: PartId,
    /// How many records the producer's epoch has sent to the partition.
    pub number: u64,
}
