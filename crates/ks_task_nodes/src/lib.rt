//! The processor nodes of a topology, as a task runs them: what each of them does, what a record says to it, which of them a topic
//! reaches, and the values that tables store (Kafka Streams developer guide, "Processor topology").
#![tactic(auto)]

mod encoded;
mod processor;
mod reach;
mod records;
mod topics;
mod values;
mod windows;

pub use encoded::EncodedRow;
pub use processor::{ForeignKeyJoin, KeyJoin, Processor, ProcessorNode, processor_nodes};
pub use reach::{live_nodes, nodes_out_of_reach_stay};
pub use records::{Payload, StampedRecord, is_elsewhere, read_record};
pub use topics::{NodeTopics, is_same_topic, node_topics};
pub use values::{
    NewValue, StoredValue, aggregate_in, is_absent, is_same_agg, is_same_bool, is_same_number,
    read_value, row_after, stored_row,
};
pub use windows::HoppingWindow;
