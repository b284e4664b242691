//! What is asked.
use ks_record::{Key, Name};

/// A key of a node's store, and the start of a window exactly where the node is a windowed count.
#[derive(Drop)]
pub struct Ask {
    pub node: Name,
    pub key: Key,
    pub start: Option<u64>,
}
