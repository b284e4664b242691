//! A topology as a job's line gives it, before anything is resolved.
use ks_expr::{Fk, JoinKind, Pred, Proj};
use ks_record::{Blob, Name, Seq};

/// What a node does; inputs and topics stand by name.
#[derive(Drop)]
pub enum Op {
    /// The records of an input topic.
    Stream {
        topic: Blob,
    },
    /// The last row of each key of an input topic.
    Table {
        topic: Blob,
    },
    /// The rows that meet a test.
    Filter {
        from: Blob,
        test: Pred,
    },
    /// Rows of other fields, made of the rows that are read.
    MapValues {
        from: Blob,
        set: Proj,
    },
    /// A stream whose keys are the texts of this field.
    SelectKey {
        from: Blob,
        key: Name,
    },
    /// Without `by` the items are grouped by their own key.
    Count {
        from: Blob,
        by: Option<Name>,
    },
    /// The sum of a field, grouped as a count is.
    Sum {
        from: Blob,
        by: Option<Name>,
        field: Name,
    },
    /// Sizes in milliseconds. Without `advance` it is the size; without `grace` it is a day.
    WindowedCount {
        from: Blob,
        by: Option<Name>,
        size: i64,
        advance: Option<i64>,
        grace: Option<i64>,
    },
    /// Two tables, row by row of the same key.
    Join {
        left: Blob,
        right: Blob,
        kind: JoinKind,
        set: Proj,
    },
    /// Two tables; `fk` gives the key of the right row, of the left row or of its key.
    FkJoin {
        left: Blob,
        right: Blob,
        fk: Fk,
        kind: JoinKind,
        set: Proj,
    },
}

/// A node by its name.
#[derive(Drop)]
pub struct NodeDraft {
    pub name: Name,
    pub op: Op,
}

/// An input topic.
#[derive(Drop)]
pub struct TopicDraft {
    /// The number of its partitions.
    pub parts: i64,
    /// Keys are spread by their front parts, before the first place of this text; without one by the whole key.
    pub before: Option<Name>,
}

/// A topology by names. It may have faults.
#[derive(Drop)]
pub struct Draft {
    /// The names of internal topics begin with this.
    pub app: Name,
    /// The input topics, each with how its keys are spread.
    pub topics: Seq<(Name, TopicDraft)>,
    pub nodes: Seq<NodeDraft>,
    /// The nodes whose tables are printed at the end.
    pub print: Seq<Blob>,
}
