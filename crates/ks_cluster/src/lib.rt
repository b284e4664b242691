//! A cluster in memory: its log, its producers and its group, under one journal that is legal and faithful.
#![tactic(auto)]

mod broker;
mod cluster;
mod inputs;
mod parked;
mod replies;
mod status;
mod waiting;
mod work;

pub use cluster::Cluster;
pub use ks_history::{Entry, Journal, Reply, Request, Status};
pub use ks_record::Refused;
pub use work::Work;
