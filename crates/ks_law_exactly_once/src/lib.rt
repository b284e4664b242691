//! What a history commits is one run without a crash. Laws over the definitions of `ks_history`: no program code.
#![tactic(auto)]

pub mod examples;
pub mod laws;
