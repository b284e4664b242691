//! What a commit comes to.

/// What a worker's commit came to.
#[derive(Clone, Copy, PartialEq, Eq)]
pub enum Outcome {
    /// The works are committed, and no marker of the worker waits.
    Committed,
    /// A request was refused, though none by `Fenced`; what it had sent is aborted, and no marker of the
    /// worker waits. The works are to be dropped, with the tasks that made them.
    Aborted,
    /// A request was refused by `Fenced`: its producer's epoch is over, and with it all that the worker has.
    Fenced,
    /// Somebody else used the worker's number, so all that the worker has is over.
    Touched,
    /// The gate cut the worker off.
    Cut,
}
