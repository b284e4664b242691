//! Reads a job from its lines: the items of the lines before the first faulty one, and its fault, in whatever
//! pieces the bytes come.
#![tactic(auto)]

mod judge;
mod place;
mod places;
mod reader;
mod wide;

pub use judge::JobItem;
pub use ks_job_record::{Input, JobKind};
pub use place::Place;
pub use reader::{JobFault, JobReader, Phase, feed_all, items_by_lines, reading_ends};
