//! What a worker's producer remembers.
use crate::client::ClusterClient;
use ks_cluster::Work;
use ks_edge::Gate;
use ks_record::{PartId, TaskId};

/// A worker's client, and what its producer remembers of its requests (Kafka Streams: a StreamsProducer; KIP-98: sequence numbers).
#[derive(Drop)]
pub struct Session<W: Work, G: Gate> {
    pub client: ClusterClient<W, G>,
    /// The place of the last accepted request of its number that it knows of; 0 at its start and after a crash.
    pub last: u64,
    /// How many records of its epoch it has sent to each partition.
    pub numbers: Vec<(PartId, u64)>,
    /// Where the records of its present transaction end, by task and partition; of two ends of the same the later one counts.
    pub ends: Vec<(TaskId, PartId, u64)>,
}
