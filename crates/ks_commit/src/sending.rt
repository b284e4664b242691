//! The work of tasks, put into a transaction that isn't decided yet.
ghost use Rattle.std.specs.Prelude.{◌≡◌, ℕ, true, List, [], ◌∷◌, OnOk, OnErr};
ghost use Rattle.std.specs.List.{All};
ghost use Rattle.ks_history.specs.State.{IsPart, has_task};
ghost use Rattle.ks_cluster.specs.View.{setup_of, state_of};
ghost use Rattle.ks_law_restore.specs.Views.{pending_work};
ghost use Rattle.ks_commit.specs.Sending.{Longer, Sends, adds_in, puts_in, adds_of, puts_of, pendings_of};
ghost use Rattle.ks_commit.specs.Work.{work_view};
ghost use Rattle.ks_commit.specs.Committed.{works_of, IsSending, IsSame, IsOfCluster, EachOf};

use crate::accepted::{add, append, send_offsets};
use crate::numbers::{number_at, with_next_number};
use crate::publisher::Publisher;
use crate::work::Frozen;
use ks_cluster::{Cluster, Work};
use ks_record::{PartId, SharedRecords, TaskId};
use std::alloc::{AllocError, Global};

/// Takes a partition into the transaction, and puts records of a task there.
fn put<W: Work>(
    alloc: Global,
    cluster: &mut Cluster<W>,
    publisher: &mut Publisher,
    task: TaskId,
    part: PartId,
    recs: &SharedRecords,
) -> Result<(), AllocError>
    requires sending { IsSending (setup_of W.plan cluster.old) (state_of W.plan cluster.old)
        publisher.old }
    requires part { IsPart (setup_of W.plan cluster.old) part }
    requires task { has_task task (setup_of W.plan cluster.old).tasks ≡ true }
    ensures sends { OnOk result (Sends W.plan cluster.old cluster.new publisher.old.worker
        (part ∷ []) ((task, part, recs.now) ∷ []) []) }
    ensures sending { OnOk result (IsSending (setup_of W.plan cluster.new)
        (state_of W.plan cluster.new) publisher.new) }
    ensures same { OnOk result (IsSame publisher.old publisher.new) }
    ensures err { OnErr result (Longer publisher.old.worker 0 cluster.old cluster.new) }
{
    let (worker, epoch) = (publisher.worker, publisher.epoch);
    let before = number_at(publisher.numbers.as_slice(), part);
    add(alloc, cluster, worker, epoch, part)?;
    append(alloc, cluster, worker, epoch, before, task, part, recs)?;
    let ends = cluster.ends(alloc, &[part])?;
    // The new number fits, since it is at most the partition's end.
    let _end = ends[0];
    let now = before + recs.len() as u64;
    let numbers = with_next_number(alloc, publisher.numbers.as_slice(), part, now)?;
    publisher.numbers = numbers;
    Ok(())
}

/// Puts all outputs of a task.
fn put_all<W: Work>(
    alloc: Global,
    cluster: &mut Cluster<W>,
    publisher: &mut Publisher,
    task: TaskId,
    outputs: Vec<(PartId, SharedRecords)>,
) -> Result<(), AllocError>
    requires sending { IsSending (setup_of W.plan cluster.old) (state_of W.plan cluster.old)
        publisher.old }
    requires parts { All (λ out. IsPart (setup_of W.plan cluster.old) out.0) outputs.items }
    requires task { has_task task (setup_of W.plan cluster.old).tasks ≡ true }
    ensures sends { OnOk result (Sends W.plan cluster.old cluster.new publisher.old.worker
        (adds_in outputs.items) (puts_in task outputs.items) []) }
    ensures sending { OnOk result (IsSending (setup_of W.plan cluster.new)
        (state_of W.plan cluster.new) publisher.new) }
    ensures same { OnOk result (IsSame publisher.old publisher.new) }
    ensures err { OnErr result (Longer publisher.old.worker 0 cluster.old cluster.new) }
{
    for out in outputs {
        put(alloc, cluster, publisher, task, out.0, &out.1)?;
    }
    Ok(())
}

/// Puts the outputs of a work, and leaves its offsets pending.
fn send<W: Work>(
    alloc: Global,
    cluster: &mut Cluster<W>,
    publisher: &mut Publisher,
    work: Frozen,
) -> Result<(), AllocError>
    requires sending { IsSending (setup_of W.plan cluster.old) (state_of W.plan cluster.old)
        publisher.old }
    requires work { IsOfCluster (setup_of W.plan cluster.old) (state_of W.plan cluster.old)
        (work_view work) }
    ensures sends { OnOk result (Sends W.plan cluster.old cluster.new publisher.old.worker
        (adds_in work.outputs) (puts_in work.task work.outputs)
        (pending_work (work_view work) ∷ [])) }
    ensures sending { OnOk result (IsSending (setup_of W.plan cluster.new)
        (state_of W.plan cluster.new) publisher.new) }
    ensures same { OnOk result (IsSame publisher.old publisher.new) }
    ensures err { OnErr result (Longer publisher.old.worker 0 cluster.old cluster.new) }
{
    let Frozen {
        task,
        outputs,
        offsets,
        order,
        late,
    } = work;
    put_all(alloc, cluster, publisher, task, outputs.into_vec())?;
    send_offsets(
        alloc,
        cluster,
        publisher.worker,
        publisher.epoch,
        publisher.generation,
        task,
        offsets.as_slice(),
        order.as_slice(),
        late,
    )?;
    Ok(())
}

/// Sends each work.
pub fn send_all<W: Work>(
    alloc: Global,
    cluster: &mut Cluster<W>,
    publisher: &mut Publisher,
    works: Vec<Frozen>,
) -> Result<(), AllocError>
    requires sending { IsSending (setup_of W.plan cluster.old) (state_of W.plan cluster.old)
        publisher.old }
    requires works { EachOf (setup_of W.plan cluster.old) (state_of W.plan cluster.old)
        (works_of works.items) }
    ensures sends { OnOk result (Sends W.plan cluster.old cluster.new publisher.old.worker
        (adds_of (works_of works.items)) (puts_of (works_of works.items))
        (pendings_of (works_of works.items))) }
    ensures sending { OnOk result (IsSending (setup_of W.plan cluster.new)
        (state_of W.plan cluster.new) publisher.new) }
    ensures same { OnOk result (IsSame publisher.old publisher.new) }
    ensures err { OnErr result (Longer publisher.old.worker 0 cluster.old cluster.new) }
{
    for work in works {
        send(alloc, cluster, publisher, work)?;
    }
    Ok(())
}
