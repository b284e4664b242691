//! Requests, replies and journals.
use ks_record::{Assignment, PartId, Rec, Refused, Seq, SharedRecords, TaskId};

/// A request that changes the cluster, and is kept in its journal.
#[derive(Drop)]
pub enum Request {
    Produce {
        part: PartId,
        rec: Rec,
    },
    Init {
        w: u8,
    },
    Add {
        w: u8,
        epoch: u64,
        part: PartId,
    },
    Append {
        w: u8,
        epoch: u64,
        number: u64,
        task: TaskId,
        part: PartId,
        recs: SharedRecords,
    },
    SendOffsets {
        w: u8,
        epoch: u64,
        generation: u64,
        task: TaskId,
        offsets: Seq<(u16, u64)>,
        order: Seq<(u16, u64)>,
        late: u64,
    },
    Decide {
        w: u8,
        epoch: u64,
        commit: bool,
    },
    MarkNext {
        w: u8,
    },
    Join {
        w: u8,
    },
    Expire {
        w: u8,
    },
    Hold {
        w: u8,
        held: Seq<(TaskId, u64)>,
    },
    Probe {
        w: u8,
        generation: u64,
    },
    Assign {
        w: u8,
        generation: u64,
        a: Assignment,
    },
    Park {
        instance: u8,
        task: TaskId,
    },
    Unpark {
        instance: u8,
        task: TaskId,
    },
}

/// What was answered to a request.
#[derive(Drop)]
pub enum Reply {
    Done,
    Number(u64),
    Truth(bool),
    Mark(Option<(PartId, bool)>),
    Refused(Refused),
}

/// A request with its reply; refused ones are entries too.
#[derive(Drop)]
pub struct Entry {
    pub request: Request,
    pub reply: Reply,
}

/// All requests of a cluster that write, in their order.
pub type Journal = Seq<Entry>;

/// The group and its partitions at one moment.
#[derive(Drop)]
pub struct Status {
    pub generation: u64,
    /// Rising.
    pub members: Seq<u8>,
    pub assignment: Option<Assignment>,
    /// By worker, and then in the order of its last `hold`.
    pub held: Seq<(u8, TaskId, u64)>,
    /// How many markers wait, of all producers.
    pub waiting: u32,
    /// Of each partition of a changelog, by topic and partition.
    pub ends: Seq<(PartId, u64)>,
}
