//! A job from a source: its items, or where and why reading it stops, and how that is told; and an audit's source, cut in lines.
#![tactic(auto)]

mod audit_opening;
mod cutting;
mod opening;
mod reading;
mod refusals;
mod rest;
mod stop;

pub use audit_opening::{OpenAudit, open_audit};
pub use cutting::cut_line;
pub use opening::{OpenJob, open_job};
pub use reading::SourceError;
pub use refusals::print_bad_job;
pub use rest::{JobEnd, JobRest, Standing};
pub use stop::JobStop;
