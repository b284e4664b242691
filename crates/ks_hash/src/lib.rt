//! Hashes of keys and rows: Murmur2 and the partition of a key, and hashes of 128 bits.
#![tactic(auto)]

mod murmur;
mod murmur3;

pub use murmur::{murmur2, partition_of};
pub use murmur3::{Constant, Hash128, Murmur3};
