//! The assignment of a group by what its cluster tells of it (KIP-441; Kafka Streams: the assignor that a group's leader runs).
#![tactic(auto)]

mod assigning;
mod clients;
mod lags;

pub use assigning::{alone_is_good, assign_group, good_places};
