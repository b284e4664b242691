//! How many entries the requests of a commit leave, and what that tells of others that used the worker's number. Each law is the
//! contract of a function that does nothing.
ghost use Rattle.ks_law_commit.specs.Accounts.{AccountBegins, AccountStays, AccountGains, AccountEnds, RefusedCounts};

/// The account is at its beginning where the worker's number was used last as the worker remembers.
pub fn account_begins()
    ensures { AccountBegins }
{}

/// Entries of others keep it.
pub fn account_stays()
    ensures { AccountStays }
{}

/// An accepted request of the worker is one more on each side.
pub fn account_gains()
    ensures { AccountGains }
{}

/// Where the number was used last at another place than the worker remembers, more requests were accepted than it made.
pub fn account_ends()
    ensures { AccountEnds }
{}

/// A refused request is an entry too.
pub fn refused_counts()
    ensures { RefusedCounts }
{}
