//! What a commit of a worker's tasks comes to.

/// What became of a worker's tasks at a commit.
#[derive(Clone, Copy, PartialEq, Eq)]
pub enum CommitEnd {
    /// No task was dirty, and no call was made.
    Clean,
    /// The works of the dirty tasks are committed, and each of these tasks was told so.
    Committed,
    /// What was sent is aborted, or nothing of it can be committed any more; the dirty tasks are dropped, and no marker of the worker waits.
    Aborted,
    /// The worker was fenced, or its number was used by another: it lost all that it had.
    Crashed,
}
