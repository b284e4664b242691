//! A work whose task copies its input to its changelog.
ghost use Rattle.std.specs.Prelude.{◌≡◌, ◌∷◌, [], IfOk};
ghost use Rattle.ks_law_exactly_once.specs.Example.{setup};
ghost use Rattle.ks_test_cluster.specs.Ours.{IsOurs};

use ks_cluster::{Cluster, Work};
use ks_record::TaskId;
use std::alloc::{AllocError, Global};

/// The only task.
pub const TASK: TaskId = TaskId { sub: 0, part: 0 };

/// Subtopology 0 copies topic 0 to its changelog, topic 1.
#[derive(Drop)]
pub struct Copying {
    pub inputs: [u16; 1],
    pub changelogs: [u16; 1],
    ghost inputs_are: { inputs ≡ 0 ∷ [] },
    ghost changelogs_are: { changelogs ≡ 1 ∷ [] },
}

impl Work for Copying {
    ghost use Rattle.std.specs.Prelude.{true};
    ghost use Rattle.ks_law_exactly_once.specs.Example.{setup};
    ghost use Rattle.ks_law_exactly_once.proofs.Written.{is_network};

    ghost plan = { λ work. setup.plan };

    ghost good = { λ work members held ends a. true };

    fn sources(&self) -> u16 {
        1
    }

    fn inputs(&self, sub: u8) -> &[u16] {
        if sub == 0 { &self.inputs } else { &[] }
    }

    fn changelogs(&self, sub: u8) -> &[u16] {
        if sub == 0 { &self.changelogs } else { &[] }
    }

    ghost network = { λ work. is_network };
}

fn counts(alloc: Global) -> Result<Vec<u8>, AllocError>
    ensures { IfOk result (λ v. v.items ≡ setup.counts) }
{
    Vec::from_slice(alloc, &[1, 1])
}

fn tasks(alloc: Global) -> Result<Vec<TaskId>, AllocError>
    ensures { IfOk result (λ v. v.items ≡ setup.tasks) }
{
    Vec::from_slice(alloc, &[TASK])
}

// A cluster with these partitions and tasks.
fn cluster_of(
    alloc: Global,
    counts: Vec<u8>,
    tasks: Vec<TaskId>,
) -> Result<Cluster<Copying>, AllocError>
    requires counts { counts.items ≡ setup.counts }
    requires tasks { tasks.items ≡ setup.tasks }
    ensures ours { IfOk result IsOurs }
    ensures new { IfOk result (λ c. c.journal ≡ []) }
{
    let work = Copying {
        inputs: [0],
        changelogs: [1],
    };
    Cluster::new(alloc, work, counts, tasks)
}

/// A cluster with one partition of the input and of the changelog, and one task.
pub fn new_cluster(alloc: Global) -> Result<Cluster<Copying>, AllocError>
    ensures ours { IfOk result IsOurs }
    ensures new { IfOk result (λ c. c.journal ≡ []) }
{
    let counts = counts(alloc)?;
    let tasks = tasks(alloc)?;
    cluster_of(alloc, counts, tasks)
}
