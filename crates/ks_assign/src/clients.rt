//! Who may run tasks, and what is wanted of an assignment.
use ks_record::{Seq, TaskId};

/// A client of the group: the workers of one instance. Kafka Streams: a client with its stream threads.
#[derive(Drop)]
pub struct Client {
    /// The number of the instance.
    pub instance: u8,
    /// The numbers of its workers.
    pub workers: Seq<u8>,
}

/// How far a client is behind with a task.
#[derive(Clone, Copy)]
pub struct Held {
    /// The client's instance.
    pub instance: u8,
    /// The task.
    pub task: TaskId,
    /// The client's lag for the task, in records; `client_lag` reckons it.
    pub lag: u64,
}

/// What is wanted of an assignment.
#[derive(Clone, Copy)]
pub struct Wants {
    /// How many standbys each task has, where there are clients for them. Kafka Streams: `num.standby.replicas`.
    pub standbys: u8,
    /// The greatest lag of a client that counts as caught up. Kafka Streams: `acceptable.recovery.lag`.
    pub lag: u64,
    /// How many warmups there are at most. Kafka Streams: `max.warmup.replicas`.
    pub warmups: u8,
}

/// How workers form clients, and what is wanted: worker `w` is one of the client of instance `w / threads`.
#[derive(Clone, Copy)]
pub struct Placing {
    /// How many workers each instance has: 1 to 4.
    pub threads: u8,
    /// What is wanted.
    pub wants: Wants,
}
