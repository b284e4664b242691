//! A worker: it takes turns, in each of which its gate says what it does (Kafka Streams: a StreamThread).
#![tactic(auto)]

mod performing;
mod running;
mod view;
mod worker;

pub use worker::Worker;
