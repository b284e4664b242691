//! The producers of a cluster and their transactions: what the transaction coordinator knows of each.
#![tactic(auto)]

mod txn;
mod txns;

pub use txns::Txns;
