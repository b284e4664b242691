//! Stores: finite maps from bytes to bytes, and what a changelog makes of one.
#![tactic(auto)]

mod calls;
mod groups;
mod hashing;
mod ordered;
mod pairs;
mod plain;
mod restoring;
mod rows;
mod short_key;
mod store;
mod table;
mod tree;

pub use calls::{StoreCall, StoreReply, run_calls};
pub use ordered::OrderedStore;
pub use plain::PlainStore;
pub use restoring::restore;
pub use store::KvStore;
