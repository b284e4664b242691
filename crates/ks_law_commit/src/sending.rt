//! A transaction on its way: what a commit's requests, accepted and refused, make of it among the entries of others. Each law is the
//! contract of a function that does nothing.
ghost use Rattle.ks_law_commit.specs.Sending.{SendingBegins, SendingGains, SendingTouched, SendingRefused};
ghost use Rattle.ks_law_commit.specs.Sending.{SendingKeepsActive, SendingIsFaithful, SendingCommits};

/// Where the worker remembers rightly, nothing is sent at first.
pub fn sending_begins()
    ensures { SendingBegins }
{}

/// An accepted request is one more, and puts into the transaction what it says.
pub fn sending_gains()
    ensures { SendingGains }
{}

/// Where the worker's number was used between, more requests were accepted than the worker made.
pub fn sending_touched()
    ensures { SendingTouched }
{}

/// A request that is prepared is refused by fencing alone, or since markers wait that waited before the commit began.
pub fn sending_refused()
    ensures { SendingRefused }
{}

/// The worker's active tasks stay so.
pub fn sending_keeps_active()
    ensures { SendingKeepsActive }
{}

/// A transaction that holds its tasks' work whole may be committed faithfully while the generation stands.
pub fn sending_is_faithful()
    ensures { SendingIsFaithful }
{}

/// What is pending at an accepted commit is what was put.
pub fn sending_commits()
    ensures { SendingCommits }
{}
