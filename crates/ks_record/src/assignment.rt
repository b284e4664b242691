//! What a cluster's requests and refusals speak of.
use crate::lists::Seq;
use crate::record::{PartId, TaskId};
use thiserror::Error;

/// Where the tasks of a generation stand, each with a worker.
#[derive(Drop)]
pub struct Assignment {
    pub active: Seq<(TaskId, u8)>,
    pub standby: Seq<(TaskId, u8)>,
    pub warmup: Seq<(TaskId, u8)>,
}

/// The end of a transaction in one of its partitions; the epoch is that of the transaction.
#[derive(Clone, Copy, PartialEq, Eq)]
pub struct Marker {
    pub part: PartId,
    pub epoch: u64,
    pub commit: bool,
}

/// Why a request was refused.
#[derive(Debug, Clone, Copy, PartialEq, Eq, Error)]
pub enum Refused {
    #[error("the next number is {expected}")]
    OutOfSequence { expected: u64 },
    #[error("the producer's epoch is {held}")]
    Fenced { held: u64 },
    #[error("the transaction was decided already, commit: {commit}")]
    AlreadyDecided { commit: bool },
    #[error("there is no such transaction")]
    NoTransaction,
    #[error("the generation is {now}")]
    OldGeneration { now: u64 },
    #[error("the task belongs to {owner:?}")]
    NotAssigned { owner: Option<u8> },
    #[error("producer {producer} has offsets pending for the task")]
    Unstable { producer: u8 },
    #[error("{left} markers wait")]
    MarkersWaiting { left: u32 },
    #[error("{task:?} is not active at exactly one member")]
    BadAssignment { task: TaskId },
}
