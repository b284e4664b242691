//! What keeps a task that has no work of its own at the cluster's state. Each law is the contract of a function that does nothing.
ghost use Rattle.ks_law_exactly_once.specs.Law.{OfHistories};
ghost use Rattle.ks_law_audit.specs.Logged.{OpenIsLogged};
ghost use Rattle.ks_law_audit.specs.Laws.{RestedStarts, RestedStays, RestedStands, MergedIsTaken, TakenRests, OrderFails, RestFails, BehindIsTold, EndStays, EndMoves};

/// A task that has taken nothing is at rest in the empty cluster.
pub fn rested_starts()
    ensures { RestedStarts }
{}

/// An entry that commits nothing for a task at rest leaves it so.
pub fn rested_stays()
    ensures { RestedStays }
{}

/// A task at rest follows the journal: it may begin to take.
pub fn rested_stands()
    ensures { RestedStands }
{}

/// A task that took its records in an order, run by run, has taken what that order names, whether or not its runs are merged.
pub fn merged_is_taken()
    ensures { MergedIsTaken }
{}

/// A task that has taken what a commit names is at rest after that commit.
pub fn taken_rests()
    ensures { TakenRests }
{}

/// Where an order asks for a record that isn't there below the pending offset, the commit isn't faithful.
pub fn order_fails()
    ensures { OrderFails }
{}

/// Where an order leaves a record below the pending offset, the commit isn't faithful.
pub fn rest_fails()
    ensures { RestFails }
{}

/// A task's records in an undecided transaction stand behind every decided one of the task exactly where the first of them does.
pub fn behind_is_told()
    ensures { BehindIsTold }
{}

/// An entry that commits nothing for a task leaves the end past its decided records as it was.
pub fn end_stays()
    ensures { EndStays }
{}

/// A commit moves the end past a task's decided records to one past the last of the transaction's, in each partition where it has some.
pub fn end_moves()
    ensures { EndMoves }
{}

/// The records of an undecided transaction that no marker completes are those of its accepted appends, each where the append was answered.
pub fn open_is_logged()
    ensures { OfHistories OpenIsLogged }
{}
