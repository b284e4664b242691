//! What a topology is made of, by numbers.
use crate::draft::Op;
use ks_record::{Blob, Name};

/// What a topic is for.
#[derive(Clone, Copy, PartialEq, Eq)]
pub enum Role {
    Input,
    Repartition,
    Subscription,
    Response,
    Changelog,
}

/// A topic by what it is for: an input topic by its number, any other by the number of the node that it serves.
#[derive(Clone, Copy, PartialEq, Eq)]
pub enum Topic {
    Input(u16),
    /// What an aggregate sends to the tasks of its groups.
    Repartition(u8),
    /// What the left side of a foreign-key join sends to the right one.
    Subscriptions(u8),
    /// What the right side sends back.
    Responses(u8),
    /// The changes of a node's store.
    Changelog(u8),
    /// The changes of a foreign-key join's subscription store.
    HashChangelog(u8),
}

/// A topic as others see it; its number is its place among all topics.
#[derive(Drop)]
pub struct TopicInfo {
    pub name: Blob,
    pub parts: u8,
    /// Its keys are spread by their front parts, before the first place of this text; without one by the whole key.
    pub before: Option<Name>,
    pub role: Role,
}

/// How keys are spread over the partitions of a topic or of a node.
#[derive(Drop)]
pub struct Spread {
    /// The number of partitions.
    pub parts: u8,
    /// Keys are spread by their front parts, before the first place of this text; without one by the whole key.
    pub before: Option<Name>,
}

/// What a node is and what it reads: topics and nodes by number.
#[derive(Clone, Copy, PartialEq, Eq)]
pub enum Wiring {
    StreamSource { topic: u16 },
    TableSource { topic: u16 },
    StreamFilter { from: u8 },
    TableFilter { from: u8 },
    StreamMap { from: u8 },
    TableMap { from: u8 },
    KeySelected { from: u8 },
    /// A count or sum of a stream, and whether it goes through a repartition topic.
    StreamAggregate { from: u8, through: bool },
    /// A count or sum of a table, which always goes through one.
    TableAggregate { from: u8 },
    Windowed { from: u8, through: bool },
    KeyJoin { left: u8, right: u8 },
    ForeignKeyJoin { left: u8, right: u8 },
}

/// A node of a topology that was built.
#[derive(Drop)]
pub struct Node {
    pub name: Name,
    pub op: Op,
    pub wiring: Wiring,
    /// The subtopology in which it lies.
    pub sub: u8,
    /// The number of partitions that it is spread over.
    pub parts: u8,
    /// The number of its changelog; none for a stream.
    pub store: Option<u16>,
}
