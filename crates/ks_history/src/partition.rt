//! What a partition holds.
use ks_record::{Rec, TaskId};

/// One offset of a partition.
#[derive(Drop)]
pub enum Slot {
    /// A record of an input.
    Plain {
        rec: Rec,
    },
    /// A record that a producer appended for a task in a transaction.
    Sent {
        producer: u8,
        epoch: u64,
        number: u64,
        task: TaskId,
        rec: Rec,
    },
    /// The end of a transaction here.
    Mark {
        producer: u8,
        epoch: u64,
        commit: bool,
    },
}
