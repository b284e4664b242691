//! One commit, call by call: each call is the next one of the history that is written out in `ks_law_exactly_once`, which is faithful.
ghost use Rattle.std.specs.Prelude.{◌≡◌, ◌∷◌, [], OnOk};
ghost use Rattle.ks_law_exactly_once.specs.Example.{active_at};
ghost use Rattle.ks_test_cluster.specs.Ours.{IsOurs};
ghost use Rattle.ks_test_cluster.specs.Stages.{Stands};

use crate::calls::active;
use crate::copying::{Copying, TASK};
use crate::tables::OneRecord;
use ks_cluster::Cluster;
use ks_record::{Assignment, PartId, Rec, SharedRecords};
use std::alloc::{AllocError, Global};

/// How far a commit has come: worker 0 has offsets pending for the record that it took, has decided, or has written the marker too.
#[derive(Clone, Copy)]
pub enum Stage {
    New,
    Sent,
    Decided,
    Marked,
}

/// Appends the record to partition 0 of topic 0 of a new cluster.
pub fn produce(alloc: Global, cluster: &mut Cluster<Copying>, rec: &Rec) -> Result<(), AllocError>
    requires ours { IsOurs cluster.old }
    requires new { cluster.old.journal ≡ [] }
    ensures { OnOk result (Stands 1 rec.now cluster.new) }
{
    cluster.produce(alloc, PartId { topic: 0, part: 0 }, rec)?;
    Ok(())
}

fn init(alloc: Global, cluster: &mut Cluster<Copying>, rec: &Rec) -> Result<(), AllocError>
    requires { Stands 1 rec.now cluster.old }
    ensures { OnOk result (Stands 2 rec.now cluster.new) }
{
    cluster.init(alloc, 0)?;
    Ok(())
}

fn join(alloc: Global, cluster: &mut Cluster<Copying>, rec: &Rec) -> Result<(), AllocError>
    requires { Stands 2 rec.now cluster.old }
    ensures { OnOk result (Stands 3 rec.now cluster.new) }
{
    cluster.join(alloc, 0)?;
    Ok(())
}

fn assign_by(
    alloc: Global,
    cluster: &mut Cluster<Copying>,
    rec: &Rec,
    a: &Assignment,
) -> Result<(), AllocError>
    requires stands { Stands 3 rec.now cluster.old }
    requires active { a.now ≡ active_at 0 }
    ensures { OnOk result (Stands 4 rec.now cluster.new) }
{
    let _outcome = cluster.assign(alloc, 0, 1, a)?;
    Ok(())
}

fn assign(alloc: Global, cluster: &mut Cluster<Copying>, rec: &Rec) -> Result<(), AllocError>
    requires { Stands 3 rec.now cluster.old }
    ensures { OnOk result (Stands 4 rec.now cluster.new) }
{
    let a = active(alloc, 0)?;
    let assigned = assign_by(alloc, cluster, rec, &a);
    drop(a);
    assigned
}

fn add(alloc: Global, cluster: &mut Cluster<Copying>, rec: &Rec) -> Result<(), AllocError>
    requires { Stands 4 rec.now cluster.old }
    ensures { OnOk result (Stands 5 rec.now cluster.new) }
{
    let _outcome = cluster.add(alloc, 0, 1, PartId { topic: 1, part: 0 })?;
    Ok(())
}

fn append(
    alloc: Global,
    cluster: &mut Cluster<Copying>,
    rec: &Rec,
    recs: &SharedRecords,
) -> Result<(), AllocError>
    requires stands { Stands 5 rec.now cluster.old }
    requires one { recs.now ≡ rec.now ∷ [] }
    ensures { OnOk result (Stands 6 rec.now cluster.new) }
{
    let _outcome = cluster.append(alloc, 0, 1, 0, TASK, PartId { topic: 1, part: 0 }, recs)?;
    Ok(())
}

fn send_offsets(alloc: Global, cluster: &mut Cluster<Copying>, rec: &Rec) -> Result<(), AllocError>
    requires { Stands 6 rec.now cluster.old }
    ensures { OnOk result (Stands 7 rec.now cluster.new) }
{
    let _outcome = cluster.send_offsets(alloc, 0, 1, 1, TASK, &[(0, 1)], &[(0, 1)], 0)?;
    Ok(())
}

/// Worker 0 takes the record, and sends its offsets.
pub fn send(
    alloc: Global,
    cluster: &mut Cluster<Copying>,
    rec: &Rec,
    recs: &SharedRecords,
) -> Result<(), AllocError>
    requires stands { Stands 1 rec.now cluster.old }
    requires one { recs.now ≡ rec.now ∷ [] }
    ensures { OnOk result (Stands 7 rec.now cluster.new) }
{
    init(alloc, cluster, rec)?;
    join(alloc, cluster, rec)?;
    assign(alloc, cluster, rec)?;
    add(alloc, cluster, rec)?;
    append(alloc, cluster, rec, recs)?;
    send_offsets(alloc, cluster, rec)
}

/// Worker 0 decides to commit what it sent.
pub fn decide(alloc: Global, cluster: &mut Cluster<Copying>, rec: &Rec) -> Result<(), AllocError>
    requires { Stands 7 rec.now cluster.old }
    ensures { OnOk result (Stands 8 rec.now cluster.new) }
{
    let _outcome = cluster.decide(alloc, 0, 1, true)?;
    Ok(())
}

/// Worker 0 writes the marker of what it decided.
pub fn mark(alloc: Global, cluster: &mut Cluster<Copying>, rec: &Rec) -> Result<(), AllocError>
    requires { Stands 8 rec.now cluster.old }
    ensures { OnOk result (Stands 9 rec.now cluster.new) }
{
    cluster.mark_next(alloc, 0)?;
    Ok(())
}

/// Brings a new cluster as far as this.
pub fn reach(
    alloc: Global,
    cluster: &mut Cluster<Copying>,
    recs: &OneRecord,
    stage: Stage,
) -> Result<(), AllocError>
    requires ours { IsOurs cluster.old }
    requires new { cluster.old.journal ≡ [] }
    requires one { recs.now.list ≡ recs.now.rec ∷ [] }
    ensures { OnOk result (IsOurs cluster.new) }
{
    if let Stage::New = stage {
        return Ok(());
    }
    produce(alloc, cluster, &recs.rec)?;
    send(alloc, cluster, &recs.rec, &recs.list)?;
    if let Stage::Sent = stage {
        return Ok(());
    }
    decide(alloc, cluster, &recs.rec)?;
    if let Stage::Decided = stage {
        return Ok(());
    }
    mark(alloc, cluster, &recs.rec)
}
