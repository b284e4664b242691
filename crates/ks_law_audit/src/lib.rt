//! What an audit of a journal stands on: tasks that are kept at the state of a cluster, commit by commit. Laws over the definitions of
//! `ks_history`: no program code.
#![tactic(auto)]

pub mod laws;
