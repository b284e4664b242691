//! What a layout is made of.
use ks_plan::Wiring;

/// The nodes by number, without names and expressions, and what follows of where they lie. Any lists are a shape; those of a
/// plan are what `shape_of` gives.
#[derive(Drop)]
pub struct Shape {
    /// The partition counts of the input topics.
    pub counts: Vec<u8>,
    pub wirings: Vec<Wiring>,
    /// Of each node the number of the first node that it is connected with.
    pub labels: Vec<u8>,
    /// The partition counts of the nodes.
    pub parts: Vec<u8>,
    /// The input topics as whose keys the nodes' are spread; none behind a repartition topic.
    pub origins: Vec<Option<u16>>,
}
