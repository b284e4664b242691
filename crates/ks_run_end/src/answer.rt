//! What a run answers.
use ks_history::Journal;

/// A status, the text that goes with it, and the journal that the run kept.
#[derive(Drop)]
pub struct Answer {
    pub status: u8,
    pub text: Vec<u8>,
    pub journal: Journal,
}
