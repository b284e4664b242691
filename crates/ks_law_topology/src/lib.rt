//! The tasks of a topology as the work of a cluster. Laws alone: each public function has an empty body, and its contract is the
//! law.
#![tactic(auto)]

ghost use Rattle.ks_law_topology.specs.Work.{WorksAreNetworks, NothingIsHeldBack, SetupsAreMade, OfJobs};
ghost use Rattle.ks_law_exactly_once.specs.Law.{IsRun, TellsStores, TellsPasts, TellsAll, TellsLists, TellsLate, SettledIsEmpty, IsShort};
ghost use Rattle.ks_law_topology.specs.Placing.{DecidedStand};
ghost use Rattle.ks_law_topology.specs.Order.{IsInOrder, DrainRises};
ghost use Rattle.ks_law_topology.specs.Projections.{ProjectionsAreRows};
ghost use Rattle.ks_law_topology.specs.Spelled.{ProjectionsFit, JoinsFit, KeysFit, ItemsFit, DeltasFit};

/// The tasks of every topology make a network: each topic has one reader, no changelog is an input or belongs to two
/// subtopologies, nobody writes into another task's changelog, and a changelog tells each change of its store.
pub fn works_are_networks()
    ensures { WorksAreNetworks }
{}

/// Where a topology is well formed, a task that takes a record writes its own changelogs alone, and answers to partitions that there are,
/// if such were named: that a record for another's changelog, or for no partition, would be held back changes nothing.
pub fn nothing_is_held_back()
    ensures { NothingIsHeldBack }
{}

/// The history's law for jobs: the replay of each legal, faithful journal of a topology is an uncrashed run of its tasks, which
/// leaves in the stores the folds of the changelogs and in the lists what is decided and not yet committed.
pub fn journals_are_runs()
    ensures run { OfJobs IsRun }
    ensures stores { OfJobs TellsStores }
    ensures pasts { OfJobs TellsPasts }
    ensures all { OfJobs TellsAll }
    ensures lists { OfJobs TellsLists }
    ensures late { OfJobs TellsLate }
    ensures settled { OfJobs SettledIsEmpty }
    ensures short { OfJobs IsShort }
{}

/// In every journal of a well-formed topology, where each key has a place, that is legal and faithful, and whose produced records stand at
/// the places of their keys, each decided internal record has a key, and each table's key stands only in the task of its place: a window's by the
/// key of its group, and a subscription's by its foreign key, where the right row of that key stands. What a subscription says, and what is
/// kept of it, names the partition of its left key's task exactly where the left side's keys are spread by their front parts.
pub fn decided_stand()
    ensures { DecidedStand }
{}

/// A cluster of every well-formed topology can be made: no task stands twice, and each input and each changelog of a task has the
/// task's partition.
pub fn setups_are_made()
    ensures { SetupsAreMade }
{}

/// What nodes make of values that have a spelling has one: projections and joins of rows, keys of fields, aggregates.
pub fn made_values_fit()
    ensures projections { ProjectionsFit }
    ensures joins { JoinsFit }
    ensures keys { KeysFit }
    ensures items { ItemsFit }
    ensures deltas { DeltasFit }
{}

/// A projection of at most 64 fields gives no row exactly where the expression of each of them is absent.
#[tactic(auto, using(crate::proofs::Projections::projections_are_rows))]
pub fn projections_are_rows()
    ensures { ProjectionsAreRows }
{}

/// What a task of a well-formed topology makes of a record goes to topics of greater number than the record's, and the topics that
/// are drained are numbered in the order in which they are: so one that was drained gets no record from those that come after it.
pub fn topics_in_order()
    ensures made { IsInOrder }
    ensures drain { DrainRises }
{}
