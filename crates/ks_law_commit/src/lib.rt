//! A worker's commit among others, from what its pass had seen when it began to what it came to, and what its tasks and its producer
//! are then. Laws over the definitions of `ks_history`: no program code.
#![tactic(auto)]

pub mod accounts;
pub mod advancing;
pub mod building;
pub mod committing;
pub mod examples;
pub mod holding;
pub mod moves;
pub mod positions;
pub mod producers;
pub mod sending;
pub mod tasks;
