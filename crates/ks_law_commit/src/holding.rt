//! The tasks that a worker holds, while its commit is on its way and after its end. Each law is the contract of a function that does
//! nothing.
ghost use Rattle.ks_law_commit.specs.Holding.{SeenAtLast, SendingHasSeen, PendingRests, SendingKeepsHeld};
ghost use Rattle.ks_law_commit.specs.Holding.{WayIsSending, WayKeepsHeld, CommitHolds, CommitKeepsOthers, AbortKeeps};

/// Who remembers the last place that touches has seen it.
pub fn seen_at_last()
    ensures { SeenAtLast }
{}

/// So has a worker whose commit is on its way.
pub fn sending_has_seen()
    ensures { SendingHasSeen }
{}

/// Others commit nothing for a task of which a producer has offsets pending, whatever becomes of the generation.
pub fn pending_rests()
    ensures { PendingRests }
{}

/// While a commit is on its way its worker's tasks stay held.
pub fn sending_keeps_held()
    ensures { SendingKeepsHeld }
{}

/// Where a commit is under way and its worker's place stands, it is on its way.
pub fn way_is_sending()
    ensures { WayIsSending }
{}

/// Whoever used the worker's number, its tasks stay held at the place that it remembers.
pub fn way_keeps_held()
    ensures { WayKeepsHeld }
{}

/// A task whose work was committed is held as it is then, and follows the journal even where the group has gone on.
pub fn commit_holds()
    ensures { CommitHolds }
{}

/// A task without work in the committed transaction stays held.
pub fn commit_keeps_others()
    ensures { CommitKeepsOthers }
{}

/// An abort leaves each task held as it was.
pub fn abort_keeps()
    ensures { AbortKeeps }
{}
