//! A transaction with the work of several tasks.
ghost use Rattle.std.specs.Prelude.{◌≡◌, ◌≢◌, ℕ, [], OnOk, IfOk, OnErr};
ghost use Rattle.std.specs.List.{All};
ghost use Rattle.ks_history.specs.Machine.{IsNetwork};
ghost use Rattle.ks_history.specs.State.{IsPart};
ghost use Rattle.ks_cluster.specs.View.{setup_of, state_of};
ghost use Rattle.ks_commit.specs.Sending.{Longer};
ghost use Rattle.ks_commit.specs.Committed.{works_of, IsReady, IsSame, EachMay, EachPlaced, AreApart, Committed, own_in, own_of_each, ends_at, ends_of_each};

use crate::accepted::decide;
use crate::markers::write_markers;
use crate::publisher::Publisher;
use crate::sending::send_all;
use crate::work::Frozen;
use ks_cluster::{Cluster, Work};
use ks_record::{PartId, Seq};
use std::alloc::{AllocError, Global};

/// A task's own partitions among its outputs.
fn own_parts(alloc: Global, work: &Frozen) -> Result<Seq<PartId>, AllocError>
    ensures { IfOk result (λ own. own ≡ own_in work.now.task work.now.outputs) }
{
    let mut own = Vec::new(alloc);
    for out in work.outputs.as_slice() {
        if out.0.part == work.task.part {
            own.push(out.0)?;
        }
    }
    Ok(Seq::of(own))
}

/// The own partitions of each work.
fn all_own(alloc: Global, works: &[Frozen]) -> Result<Vec<Seq<PartId>>, AllocError>
    ensures { IfOk result (λ all. all.items ≡ own_of_each (works_of works.now)) }
{
    let mut all = Vec::with_capacity(alloc, works.len())?;
    for work in works {
        all.push(own_parts(alloc, work)?)?;
    }
    Ok(all)
}

/// The ends of these partitions, by topic.
fn own_ends<W: Work>(
    alloc: Global,
    cluster: &Cluster<W>,
    own: &[PartId],
) -> Result<Seq<(u16, u64)>, AllocError>
    requires { All (IsPart (setup_of W.plan cluster.now)) own.now }
    ensures { IfOk result (λ ends. ends ≡ ends_at (state_of W.plan cluster.now) own.now) }
{
    let mut made = Vec::with_capacity(alloc, own.len())?;
    for part in own {
        let ends = cluster.ends(alloc, &[*part])?;
        made.push((part.topic, ends[0]))?;
    }
    Ok(Seq::of(made))
}

/// The ends of each work.
fn all_ends<W: Work>(
    alloc: Global,
    cluster: &Cluster<W>,
    all: &[Seq<PartId>],
) -> Result<Vec<Seq<(u16, u64)>>, AllocError>
    requires { EachPlaced (setup_of W.plan cluster.now) all.now }
    ensures { IfOk result (λ ends. ends.items
        ≡ ends_of_each (state_of W.plan cluster.now) all.now) }
{
    let mut made = Vec::with_capacity(alloc, all.len())?;
    for own in all {
        made.push(own_ends(alloc, cluster, own.as_slice())?)?;
    }
    Ok(made)
}

/// Commits the work of several tasks in one transaction: all outputs are put, all offsets are pending, all is committed at
/// once, and the markers are written. Answers for each work the ends of its task's own partitions among its outputs, which are
/// past its changelog records.
///
/// Log and journal share the payloads of the records. After want of memory the works are gone, and the transaction may be
/// undecided or decided.
pub fn commit<W: Work>(
    alloc: Global,
    cluster: &mut Cluster<W>,
    publisher: &mut Publisher,
    works: Vec<Frozen>,
) -> Result<Vec<Seq<(u16, u64)>>, AllocError>
    requires network { IsNetwork (W.plan cluster.old.work) }
    requires ready { IsReady (setup_of W.plan cluster.old) (state_of W.plan cluster.old)
        publisher.old }
    requires some { works.items ≢ [] }
    requires apart { AreApart (works_of works.items) }
    requires works { EachMay (setup_of W.plan cluster.old) (state_of W.plan cluster.old)
        (works_of works.items) }
    ensures committed { IfOk result (λ ends. Committed W.plan cluster.old cluster.new
        publisher.old.worker (works_of works.items) ends.items) }
    ensures ready { OnOk result (IsReady (setup_of W.plan cluster.new) (state_of W.plan cluster.new)
        publisher.new) }
    ensures same { OnOk result (IsSame publisher.old publisher.new) }
    ensures err { OnErr result (Longer publisher.old.worker 1 cluster.old cluster.new) }
{
    let _before = cluster.journal();
    let own = all_own(alloc, works.as_slice())?;
    send_all(alloc, cluster, publisher, works)?;
    decide(alloc, cluster, publisher.worker, publisher.epoch)?;
    write_markers(alloc, cluster, publisher.worker)?;
    let _after = cluster.journal();
    all_ends(alloc, cluster, own.as_slice())
}
