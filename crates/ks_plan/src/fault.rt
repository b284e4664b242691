//! What is wrong with a draft.
use ks_record::Blob;

/// The first fault of a draft, with the names that it is told by.
#[derive(Drop, Debug)]
pub enum TopoFault {
    /// A source's topic, a node's input or a printed name that is not known.
    UnknownInput { name: Blob },
    /// An input is not of the kind that the node takes, or a table is aggregated without a group, or a stream is printed.
    WrongKind { name: Blob },
    /// A node or a printed name that stands before already, a topic that an earlier source reads, or an input topic that has
    /// the name of a node's internal topic.
    DuplicateName { name: Blob },
    /// The sides of a join by key have different numbers of partitions.
    NotCopartitioned { left: Blob, right: Blob },
    /// More `topics`, `partitions`, `nodes` or `fields` than the limit.
    TooMany { what: Blob, limit: u64 },
    /// A windowed count has not 1 ≤ advance ≤ size ≤ 1,000 · advance, or a negative grace, or one of them is past
    /// 9,007,199,254,740,992 ms.
    BadWindow { name: Blob },
    /// An input is a windowed count, which no node may read.
    SinkOnly { name: Blob },
}
