//! How far positions move, and how far they stand. Each law is the contract of a function that does nothing.
ghost use Rattle.ks_law_commit.specs.Bounds.{FetchesGoOn, StableRises, ReplicaIsWithin};

/// A fetch goes on where it began or later, within the partition; where it doesn't move, nothing stable is left.
pub fn fetches_go_on()
    ensures { FetchesGoOn }
{}

/// The last stable offset of a partition never falls.
pub fn stable_rises()
    ensures { StableRises }
{}

/// A replica that follows a journal stands within its changelogs, so that it may fetch where it stands.
pub fn replica_is_within()
    ensures { ReplicaIsWithin }
{}
