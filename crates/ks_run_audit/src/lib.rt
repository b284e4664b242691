//! The command `audit`: a topology line and the output of a settled run with its journal are read from a source, and judged line by line.
#![tactic(auto)]

mod auditing;
mod ending;
mod feeding;
mod output;

pub use auditing::{AuditAnswer, audit_source};
