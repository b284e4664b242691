//! Calls through the lock. All are of worker 0 in its epoch 1, of instance 0 and of the only task, but `init`.
ghost use Rattle.std.specs.Prelude.{◌≡◌, ◌<◌, ◌≤◌, IfOk};
ghost use Rattle.ks_history.specs.History.{at};
ghost use Rattle.ks_history.specs.Reads.{fetched};
ghost use Rattle.ks_law_exactly_once.specs.Example.{setup, the_task};
ghost use Rattle.ks_shared.specs.Shelf.{IsReplicaOf};
ghost use Rattle.ks_test_shared.specs.Ours.{IsOurs};

use ks_growing::Pass;
use ks_record::{PartId, Rec, RecordList, RecordRef, SharedRecords};
use ks_shared::{Barred, Shared, SharedState};
use ks_standby::Replica;
use ks_test_cluster::copying::{Copying, TASK};
use std::alloc::{AllocError, AllocFailed, Global};
use std::process::Abort;
use std::sync::Wait;

const CHANGELOG: PartId = PartId { topic: 1, part: 0 };

/// Appends a record to partition 0 of topic 0, and answers its offset; through the first pass.
pub fn produce<R: Wait>(
    rt: &R,
    alloc: Global,
    shared: &Shared<Copying>,
    rec: &Rec,
    pass: &mut Pass<SharedState<Copying>>,
) -> Result<u64, AllocError>
    requires ours { IsOurs shared.now.growing.id pass.old }
    requires first { pass.old.number ≡ 0 }
    ensures ours { IsOurs shared.now.growing.id pass.new }
    ensures number { pass.new.number ≡ pass.old.number }
{
    shared.produce(rt, alloc, PartId { topic: 0, part: 0 }, rec, pass)
}

/// Begins a further epoch of a worker.
pub fn init<R: Wait>(
    rt: &R,
    alloc: Global,
    shared: &Shared<Copying>,
    w: u8,
    last: &mut u64,
    pass: &mut Pass<SharedState<Copying>>,
) -> Result<u64, AllocError>
    requires worker { w ≤ 15 }
    requires ours { IsOurs shared.now.growing.id pass.old }
    ensures ours { IsOurs shared.now.growing.id pass.new }
    ensures number { pass.new.number ≡ pass.old.number }
{
    shared.init(rt, alloc, w, last, pass)
}

/// Adds the changelog to worker 0's transaction of its first epoch.
pub fn add<R: Wait>(
    rt: &R,
    alloc: Global,
    shared: &Shared<Copying>,
    last: &mut u64,
    pass: &mut Pass<SharedState<Copying>>,
) -> Result<Result<(), Barred>, AllocError>
    requires ours { IsOurs shared.now.growing.id pass.old }
    ensures ours { IsOurs shared.now.growing.id pass.new }
    ensures number { pass.new.number ≡ pass.old.number }
{
    shared.add(rt, alloc, 0, 1, CHANGELOG, last, pass)
}

/// Appends the first record of the epoch.
pub fn append<R: Wait>(
    rt: &R,
    alloc: Global,
    shared: &Shared<Copying>,
    last: &mut u64,
    pass: &mut Pass<SharedState<Copying>>,
) -> Result<Result<u64, Barred>, AllocError>
    requires ours { IsOurs shared.now.growing.id pass.old }
    ensures ours { IsOurs shared.now.growing.id pass.new }
    ensures number { pass.new.number ≡ pass.old.number }
{
    let mut list = RecordList::new(alloc);
    list.push(RecordRef {
        key: None,
        value: None,
        ts: 0,
    })?;
    let recs = SharedRecords::of(alloc, list)?;
    shared.append(rt, alloc, 0, 1, 0, TASK, CHANGELOG, &recs, last, pass)
}

/// Aborts worker 0's transaction of its first epoch.
pub fn abort<R: Wait>(
    rt: &R,
    alloc: Global,
    shared: &Shared<Copying>,
    last: &mut u64,
    pass: &mut Pass<SharedState<Copying>>,
) -> Result<Result<(), Barred>, AllocError>
    requires ours { IsOurs shared.now.growing.id pass.old }
    ensures ours { IsOurs shared.now.growing.id pass.new }
    ensures number { pass.new.number ≡ pass.old.number }
{
    shared.decide(rt, alloc, 0, 1, false, last, pass)
}

/// Writes the next waiting marker of worker 0.
pub fn mark<R: Wait>(
    rt: &R,
    alloc: Global,
    shared: &Shared<Copying>,
    pass: &mut Pass<SharedState<Copying>>,
) -> Result<Option<(PartId, bool)>, AllocError>
    requires ours { IsOurs shared.now.growing.id pass.old }
    ensures ours { IsOurs shared.now.growing.id pass.new }
    ensures number { pass.new.number ≡ pass.old.number }
{
    shared.mark_next(rt, alloc, 0, pass)
}

/// All that is readable of a partition, and where the next fetch goes on.
pub fn fetch<R: Wait>(
    rt: &R,
    alloc: Global,
    shared: &Shared<Copying>,
    topic: u16,
    pass: &mut Pass<SharedState<Copying>>,
) -> Result<(Vec<(u64, Rec)>, u64), AllocError>
    requires topic { topic < 2 }
    requires ours { IsOurs shared.now.growing.id pass.old }
    ensures ours { IsOurs shared.now.growing.id pass.new }
    ensures number { pass.new.number ≡ pass.old.number }
    ensures records { IfOk result (λ r. r.0.items
        ≡ (fetched (at setup pass.new.seen) (record { topic = topic; part = 0 }) 0 1000).0) }
    ensures next { IfOk result (λ r. r.1
        ≡ (fetched (at setup pass.new.seen) (record { topic = topic; part = 0 }) 0 1000).1) }
{
    shared.fetch(rt, alloc, PartId { topic, part: 0 }, 0, 1000, pass)
}

/// A replica that was fed all that is readable of its changelog; want of memory ends the test.
pub fn feed<R: Wait + Abort>(
    rt: &R,
    alloc: Global,
    shared: &Shared<Copying>,
    pass: &mut Pass<SharedState<Copying>>,
) -> Replica
    requires ours { IsOurs shared.now.growing.id pass.old }
    ensures ours { IsOurs shared.now.growing.id pass.new }
    ensures number { pass.new.number ≡ pass.old.number }
    ensures follows { IsReplicaOf setup pass.new.seen the_task result }
{
    let Ok((recs, next)) = fetch(rt, alloc, shared, 1, pass) else {
        rt.abort()
    };
    let Ok(mut replica) = Replica::new(alloc, TASK, &[1], 1) else {
        rt.abort()
    };
    match replica.feed(1, recs, next) {
        Ok(()) => replica,
        Err(_) => rt.abort(),
    }
}

/// Parks a replica at instance 0; after want of memory it comes back.
pub fn park<R: Wait>(
    rt: &R,
    alloc: Global,
    shared: &Shared<Copying>,
    replica: Replica,
    pass: &mut Pass<SharedState<Copying>>,
) -> Result<(), AllocFailed<Replica>>
    requires ours { IsOurs shared.now.growing.id pass.old }
    requires follows { IsReplicaOf setup pass.old.seen the_task replica }
    ensures ours { IsOurs shared.now.growing.id pass.new }
    ensures number { pass.new.number ≡ pass.old.number }
{
    shared.park(rt, alloc, 0, replica, pass)
}

/// Takes the task's replica back from instance 0; none where none is parked.
pub fn unpark<R: Wait>(
    rt: &R,
    alloc: Global,
    shared: &Shared<Copying>,
    pass: &mut Pass<SharedState<Copying>>,
) -> Result<Option<Replica>, AllocError>
    requires ours { IsOurs shared.now.growing.id pass.old }
    ensures ours { IsOurs shared.now.growing.id pass.new }
    ensures number { pass.new.number ≡ pass.old.number }
{
    shared.unpark(rt, alloc, 0, TASK, pass)
}
