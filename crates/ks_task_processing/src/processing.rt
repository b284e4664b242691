//! The step of a task at a record, which a task is told how to take.
ghost use Rattle.std.specs.Prelude.{◌≡◌, ◌≤◌, ◌++◌, IfOk, OnOk, map};
ghost use Rattle.ks_cache.specs.Changelogs.{stores_in};
ghost use Rattle.ks_history.specs.Faithful.{capped};
ghost use Rattle.ks_def_tasks.specs.Rules.{rules_of};
ghost use Rattle.ks_task_nodes.specs.Nodes.{node_view};
ghost use Rattle.ks_task_nodes.specs.Records.{arrival_of};
ghost use Rattle.ks_task_processing.specs.Steps.{made_of, late_in};

use ks_hash::Hash128;
use ks_record::PlacedRecords;
use ks_task_values::Step;
use std::alloc::{AllocError, Global};

/// What takes the steps of tasks, with the hash that it hashes rows by (Kafka Streams, `StreamTask.process`).
pub trait Processing: Hash128 {
    /// All that the nodes make of a record in one step, at the end of other records: what is sent, then the changelog records; and how
    /// many pairs of an item and a window were late, up to the greatest number. The step's partition is at most 63. Want of memory is
    /// the one error, after which some of the records may stand there.
    fn process(alloc: Global, out: &mut PlacedRecords, step: &Step<'_>) -> Result<u64, AllocError>
        requires { step.now.partition ≤ 63 }
        ensures records { OnOk result (out.new ≡ out.old
            ++ made_of (rules_of Self.hash_of) (map node_view step.now.nodes.now)
            (stores_in step.now.changelogs.now) step.now.partition (arrival_of step.now.stamped.now)) }
        ensures late { IfOk result (λ n. n ≡ capped
            (late_in (map node_view step.now.nodes.now) (stores_in step.now.changelogs.now)
            (arrival_of step.now.stamped.now))) };
}
