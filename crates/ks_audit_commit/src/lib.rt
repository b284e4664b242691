//! Whether a commit of a journal is faithful, task by task: each task takes again what the commit names, and what it makes is compared with
//! what was sent (KIP-447).
#![tactic(auto)]

mod audited;
mod comparing;
mod ends;
mod ordering;
mod taking;

pub use audited::AuditedTask;
