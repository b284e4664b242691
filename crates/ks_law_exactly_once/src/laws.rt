//! The history's law. Each law is the contract of a function that does nothing.
ghost use Rattle.ks_law_exactly_once.specs.Law.{OfHistories, IsRun, TellsStores, TellsPasts, TellsAll, TellsLists, TellsLate, SettledIsEmpty, IsShort, ReadableIsDecided};
ghost use Rattle.ks_law_exactly_once.specs.Keeping.{AllKept};
ghost use Rattle.ks_law_exactly_once.specs.Appended.{OpenIsAppended};

/// A legal, faithful journal commits what one run without a crash does, whatever was aborted, fenced or refused in it: the
/// steps that its commits name, each taking the first record of its list, leave in the stores the folds of the changelogs,
/// and in the lists what is decided and not yet committed.
pub fn replay_is_run()
    ensures run { OfHistories IsRun }
    ensures stores { OfHistories TellsStores }
    ensures pasts { OfHistories TellsPasts }
    ensures all { OfHistories TellsAll }
    ensures lists { OfHistories TellsLists }
    ensures late { OfHistories TellsLate }
{}

/// What the tasks keep of records and stores, and what holds of the produced records, holds of every decided record and of
/// the folds: in this way each record on an internal topic has a key and a value of its kind, and stands where its key belongs.
pub fn kept_by_tasks()
    ensures { OfHistories AllKept }
{}

/// A settled cluster is at rest: nothing waits in the lists of what its tasks read.
pub fn settled_is_empty()
    ensures { OfHistories SettledIsEmpty }
{}

/// A reader of committed records gets what is decided below the stable offset, neither more nor less.
pub fn readable_is_decided()
    ensures { ReadableIsDecided }
{}

/// A replay has at most as many steps as there are records, so a bound on the records of a journal is one on the run.
pub fn replay_is_short()
    ensures { OfHistories IsShort }
{}

/// What a faithful commit compares with what its tasks make is what its transaction appended: the records of an undecided
/// transaction that no marker completes are those of its accepted appends, in their order.
pub fn open_is_appended()
    ensures { OfHistories OpenIsAppended }
{}
