//! What a settled journal of a job answers. Laws alone: each public function has an empty body, and its contract is the law.
#![tactic(auto)]

pub mod in_time;
pub mod routes;

ghost use Rattle.ks_law_settled.specs.Replayed.{StatesAgree};
ghost use Rattle.ks_law_settled.specs.Settled.{
  CollisionsAreTold,
  OthersAreTheQuery,
  RunsHaveEnded,
  SubscriptionsAreTheQuery,
  TablesAreTheQuery,
  WindowsLackTheLate,
  WithinGraceIsNotLate,
};

/// Of every job of a well-formed topology and every settled, legal and faithful journal that has produced exactly its records: where no
/// two rows of a left key of a join on a foreign key collide, each printed table that is no windowed count is, by the folds of its
/// changelog, the query's; and where nothing was late, each printed table is.
pub fn settled_tables_are_the_query()
    ensures tables { TablesAreTheQuery }
    ensures others { OthersAreTheQuery }
{}

/// Of the same journals, whatever collides: each window's count, by the folds, is at most the query's, and in total they lack the
/// committed late total. Where the job's records are within grace that is 0.
pub fn windows_lack_the_late()
    ensures counts { WindowsLackTheLate }
    ensures in_time { WithinGraceIsNotLate }
{}

/// Of the same journals: the first two decided records of a left node's changelog that collide, by node, partition, greater and lesser
/// offset, are a collision of the journal's run; and where there are none the run has none.
pub fn collisions_are_told()
    ensures { CollisionsAreTold }
{}

/// Each state of a journal's replay, which is a run over bytes, is that of the decoded run of the same steps: so what holds in every
/// state of every run of a topology holds in those of a journal. Of a settled journal the run is at rest, its stores are the folds of
/// the changelogs, and each subscription store has exactly the hashes of the query's left rows.
pub fn replays_are_decoded()
    ensures states { StatesAgree }
    ensures ended { RunsHaveEnded }
    ensures subscriptions { SubscriptionsAreTheQuery }
{}
