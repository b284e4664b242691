//! What a run answers: its statuses, the verdict on its settled cluster, and what each says of the job and the journal.
#![tactic(auto)]

mod status;
mod verdict;

pub use status::{BAD_ASK, BAD_JOB, BAD_WORDS, COLLISION, NO_MEMORY, READ_FAULT, WRITE_FAULT};
pub use verdict::{Verdict, judge, print_verdict};
