//! What keeps a task following a journal. Each law is the contract of a function that does nothing.
ghost use Rattle.ks_law_restore.specs.Laws.{FreshStands, FreshFollows, TakingStands, FetchingStands, SkippingStands, FrozenIsWork, FrozenIsInside, LongerStands, ReplicaStands, CommittedStands, LastIsPast, OwnerCommits};
ghost use Rattle.ks_law_restore.specs.Replicas.{ReplicaStarts, FeedingFollows, RestoredStands, RestedFollows};

/// A task that has taken nothing follows a journal that has committed nothing of its inputs and decided nothing in its
/// changelogs.
pub fn fresh_stands()
    ensures { FreshStands }
{}

/// A task that has taken nothing follows every history that commits nothing for it.
pub fn fresh_follows()
    ensures { FreshFollows }
{}

/// A task that takes the next readable record of an input follows as before.
pub fn taking_stands()
    ensures { TakingStands }
{}

/// A task that takes all that a fetch gives of an input, and goes on where the next fetch does, follows as before.
pub fn fetching_stands()
    ensures { FetchingStands }
{}

/// A task that passes over what is not readable follows as before.
pub fn skipping_stands()
    ensures { SkippingStands }
{}

/// What a task hands to a transaction is what it makes, in the journal's state, of its inputs from the committed offsets to its
/// positions: so the transaction is faithful.
pub fn frozen_is_work()
    ensures { FrozenIsWork }
{}

/// Where the cluster's tasks send to partitions of the cluster alone, so does what a task hands to a transaction.
pub fn frozen_is_inside()
    ensures { FrozenIsInside }
{}

/// A task follows every longer journal that commits nothing for it, whatever it commits for others.
pub fn longer_stands()
    ensures { LongerStands }
{}

/// A replica follows every longer journal.
pub fn replica_stands()
    ensures { ReplicaStands }
{}

/// After the commit of its frozen work a task follows the longer journal: its kept offsets are its positions, and its
/// changelog positions are the ends past its records.
pub fn committed_stands()
    ensures { CommittedStands }
{}

/// One past the last decided record of a partition is an end past its records, as `committed_stands` asks of ends.
pub fn last_is_past()
    ensures { LastIsPast }
{}

/// While the generation stays, only the worker at which a task is active commits for it, where nothing of it was pending before.
pub fn owner_commits()
    ensures { OwnerCommits }
{}

/// A replica that was fed nothing follows every journal.
pub fn replica_starts()
    ensures { ReplicaStarts }
{}

/// A replica that is fed all that a fetch gives of a changelog, and goes on where the next fetch does, follows as before.
pub fn feeding_follows()
    ensures { FeedingFollows }
{}

/// A task made of a replica that is past every decided record, with the committed offsets, follows the journal.
pub fn restored_stands()
    ensures { RestoredStands }
{}

/// A task that has taken nothing since its last commit is a replica that follows the journal.
pub fn rested_follows()
    ensures { RestedFollows }
{}
