//! The commit of a transaction that was built among others (KIP-98, KIP-447). Each law is the contract of a function that does nothing.
ghost use Rattle.ks_law_commit.specs.Committing.{BuildingFaithful, AppendEnds, CommittedEnds, ActiveCommits, ActiveRests};

/// A transaction that holds its tasks' work whole, and for which nobody else committed since it began, may be committed faithfully.
pub fn building_faithful()
    ensures { BuildingFaithful }
{}

/// The offset past a task's open records in a partition is the answer of the last append there plus the number of its records.
pub fn append_ends()
    ensures { AppendEnds }
{}

/// After the commit the offset past a task's open records in its changelog is past all that is decided there.
pub fn committed_ends()
    ensures { CommittedEnds }
{}

/// After the commit a task whose work was in it is active still, with its positions as the committed offsets.
pub fn active_commits()
    ensures { ActiveCommits }
{}

/// After the commit a task of which nothing was pending is active still, as it was.
pub fn active_rests()
    ensures { ActiveRests }
{}
