//! What a worker's requests and the entries of others between them come to, as one fact that composes. Each law is the contract of a
//! function that does nothing.
ghost use Rattle.ks_law_commit.specs.Advancing.{OthersAdvance, RequestAdvances, BothAdvance};

/// Entries of others, while the epoch stands: nothing is put, nothing is made.
pub fn others_advance()
    ensures { OthersAdvance }
{}

/// An accepted `add`, `append` or `send_offsets` of the worker: what it puts, and one request.
pub fn request_advances()
    ensures { RequestAdvances }
{}

/// One stretch of entries behind another.
pub fn both_advance()
    ensures { BothAdvance }
{}
