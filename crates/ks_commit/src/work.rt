//! The work of a task, as a transaction publishes it.
use ks_record::{PartId, Seq, SharedRecords, TaskId};

/// The work of a task since its last commit.
#[derive(Drop)]
pub struct Frozen {
    pub task: TaskId,
    /// The outputs and the changelog records, by partition: none twice, and none without a record.
    pub outputs: Seq<(PartId, SharedRecords)>,
    /// For each input topic, the offset up to which records were taken.
    pub offsets: Seq<(u16, u64)>,
    /// In which order they were taken: runs of a topic and a count.
    pub order: Seq<(u16, u64)>,
    /// How many pairs of record and window were late.
    pub late: u64,
}
