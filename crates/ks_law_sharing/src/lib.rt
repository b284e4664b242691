//! What a worker may rely on while others write the same journal. Laws over the definitions of `ks_history`: no program code.
#![tactic(auto)]

pub mod others;
pub mod refusals;
pub mod tasks;
