//! What a report says.
use crate::joins::JoinCollision;
use crate::lags::Lag;

/// What a cluster has come to.
#[derive(Drop)]
pub struct Report {
    /// Whether all that was produced has been taken and committed: nothing is pending, and there are no lags.
    pub settled: bool,
    /// The partitions that tasks read and whose committed offset isn't their end: by the order in which topics are drained, then by
    /// partition.
    pub lags: Vec<Lag>,
    /// How many producers have an undecided transaction or a waiting marker.
    pub pending: u32,
    /// The committed total of late pairs of a record and a window; it stays at the greatest `u64`.
    pub late: u64,
    /// The first hash collision in a changelog of a join's left side: by join, partition, greater and lesser offset.
    pub collision: Option<JoinCollision>,
}
