//! A replica is fed one of its changelogs through a pass.
ghost use Rattle.std.specs.Prelude.{◌≡◌, ◌≤◌, true, IfOk, OnOk};
ghost use Rattle.std.specs.List.{All};
ghost use Rattle.ks_history.specs.Machine.{has_topic, part_of};
ghost use Rattle.ks_history.specs.State.{IsPart};
ghost use Rattle.ks_history.specs.Reads.{MayFetch, fetched, end_of, ends_of};
ghost use Rattle.ks_standby.specs.Replicas.{changelogs_of};
ghost use Rattle.ks_shared.specs.Calls.{setup_in};
ghost use Rattle.ks_law_commit.specs.Bounds.{stable_of};
ghost use Rattle.ks_worker_client.specs.Calls.{Later, state_seen};
ghost use Rattle.ks_worker_state.specs.Standbys.{IsStandby};
ghost use Rattle.ks_iq.specs.Readers.{MayCallThrough, IsFedOnce, IsFedTo};

use ks_cluster::Work;
use ks_growing::Pass;
use ks_record::{PartId, Rec};
use ks_shared::{Shared, SharedState};
use ks_standby::Replica;
use ks_task::MOST_FED;
use std::alloc::{AllocError, Global};
use std::sync::Wait;

// What a fetch of a partition gives from an offset on, and where the next one goes on.
fn fetch_through<R: Wait, W: Work>(
    rt: &R,
    alloc: Global,
    shared: &Shared<W>,
    pass: &mut Pass<SharedState<W>>,
    part: PartId,
    from: u64,
) -> Result<(Vec<(u64, Rec)>, u64), AllocError>
    requires may { MayCallThrough W.plan shared.now.growing.id pass.old }
    requires fetch { MayFetch (setup_in W.plan pass.old.frame) (state_seen W.plan pass.old) part
        from 4096 }
    ensures later { Later W.plan pass.old pass.new }
    ensures made { pass.new.made ≡ pass.old.made }
    ensures records { IfOk result (λ r. r.0.items
        ≡ (fetched (state_seen W.plan pass.new) part from 4096).0) }
    ensures next { IfOk result (λ r. r.1
        ≡ (fetched (state_seen W.plan pass.new) part from 4096).1) }
{
    shared.fetch(rt, alloc, part, from, MOST_FED, pass)
}

// The ends of partitions.
fn ends_through<R: Wait, W: Work>(
    rt: &R,
    alloc: Global,
    shared: &Shared<W>,
    pass: &mut Pass<SharedState<W>>,
    parts: &[PartId],
) -> Result<Vec<u64>, AllocError>
    requires may { MayCallThrough W.plan shared.now.growing.id pass.old }
    requires parts { All (IsPart (setup_in W.plan pass.old.frame)) parts.now }
    ensures later { Later W.plan pass.old pass.new }
    ensures made { pass.new.made ≡ pass.old.made }
    ensures ends { IfOk result (λ v. v.items ≡ ends_of (state_seen W.plan pass.new) parts.now) }
{
    shared.ends(rt, alloc, parts, pass)
}

// Feeds a replica what one fetch of one of its changelogs gives; whether that moved it.
fn feed_once<R: Wait, W: Work>(
    rt: &R,
    alloc: Global,
    shared: &Shared<W>,
    pass: &mut Pass<SharedState<W>>,
    replica: &mut Replica,
    topic: u16,
) -> Result<bool, AllocError>
    requires may { MayCallThrough W.plan shared.now.growing.id pass.old }
    requires standby { IsStandby (setup_in W.plan pass.old.frame) pass.old.seen replica.old }
    requires topic { has_topic topic (changelogs_of replica.old) ≡ true }
    ensures later { Later W.plan pass.old pass.new }
    ensures made { pass.new.made ≡ pass.old.made }
    ensures fed { IfOk result (λ moved. IsFedOnce (setup_in W.plan pass.old.frame) pass.old.seen
        pass.new.seen topic moved replica.old replica.new) }
{
    let from = replica.position(topic);
    let part = PartId {
        topic,
        part: replica.id().part,
    };
    let (recs, next) = fetch_through(rt, alloc, shared, pass, part, from)?;
    replica.feed(topic, recs, next)?;
    Ok(from < next)
}

// The end of a partition.
fn end_of_part<R: Wait, W: Work>(
    rt: &R,
    alloc: Global,
    shared: &Shared<W>,
    pass: &mut Pass<SharedState<W>>,
    part: PartId,
) -> Result<u64, AllocError>
    requires may { MayCallThrough W.plan shared.now.growing.id pass.old }
    requires part { IsPart (setup_in W.plan pass.old.frame) part }
    ensures later { Later W.plan pass.old pass.new }
    ensures made { pass.new.made ≡ pass.old.made }
    ensures end { IfOk result (λ n. n ≡ end_of (state_seen W.plan pass.new) part) }
{
    let ends = ends_through(rt, alloc, shared, pass, &[part])?;
    match ends.first() {
        Some(end) => Ok(*end),
        None => unreachable!(),
    }
}

// Feeds a replica one of its changelogs until it has reached an offset at which all is that was stable, or no fetch moves it.
fn feed_to<R: Wait, W: Work>(
    rt: &R,
    alloc: Global,
    shared: &Shared<W>,
    pass: &mut Pass<SharedState<W>>,
    replica: &mut Replica,
    topic: u16,
    end: u64,
) -> Result<(), AllocError>
    requires may { MayCallThrough W.plan shared.now.growing.id pass.old }
    requires standby { IsStandby (setup_in W.plan pass.old.frame) pass.old.seen replica.old }
    requires topic { has_topic topic (changelogs_of replica.old) ≡ true }
    requires enough { stable_of (state_seen W.plan pass.old) (part_of topic replica.old.id) ≤ end }
    ensures later { Later W.plan pass.old pass.new }
    ensures made { pass.new.made ≡ pass.old.made }
    ensures fed { OnOk result (IsFedTo (setup_in W.plan pass.old.frame) pass.old.seen pass.new.seen
        topic replica.old replica.new) }
{
    while replica.position(topic) < end {
        if !feed_once(rt, alloc, shared, pass, replica, topic)? {
            return Ok(());
        }
    }
    Ok(())
}

/// Feeds a replica one of its changelogs up to the end that it has, or until no fetch moves it.
pub fn feed_on<R: Wait, W: Work>(
    rt: &R,
    alloc: Global,
    shared: &Shared<W>,
    pass: &mut Pass<SharedState<W>>,
    replica: &mut Replica,
    topic: u16,
) -> Result<(), AllocError>
    requires may { MayCallThrough W.plan shared.now.growing.id pass.old }
    requires standby { IsStandby (setup_in W.plan pass.old.frame) pass.old.seen replica.old }
    requires topic { has_topic topic (changelogs_of replica.old) ≡ true }
    ensures later { Later W.plan pass.old pass.new }
    ensures made { pass.new.made ≡ pass.old.made }
    ensures fed { OnOk result (IsFedTo (setup_in W.plan pass.old.frame) pass.old.seen pass.new.seen
        topic replica.old replica.new) }
{
    let part = PartId {
        topic,
        part: replica.id().part,
    };
    let end = end_of_part(rt, alloc, shared, pass, part)?;
    feed_to(rt, alloc, shared, pass, replica, topic, end)
}
