//! What keeps a task, and a replica, following a journal. Laws over the definitions of `ks_history`: no program code.
#![tactic(auto)]

pub mod examples;
pub mod laws;
