//! The audit of a journal: its lines, one after another, judged as entries of a legal and faithful journal.
#![tactic(auto)]

mod audit;
mod commits;
mod fault;
pub mod laws;
mod placing;
mod replay;

pub use audit::Audit;
pub use fault::AuditFault;
