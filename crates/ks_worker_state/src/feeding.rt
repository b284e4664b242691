//! A worker's replicas are fed. This writes no entry.
ghost use Rattle.std.specs.Prelude.{◌≡◌, ◌≤◌, ◌<◌, ◌⊎◌, ◌∷◌, ◌||◌, [], true, false, map, OnOk, IfOk};
ghost use Rattle.ks_history.specs.Machine.{has_topic, part_of};
ghost use Rattle.ks_history.specs.Reads.{ends_of};
ghost use Rattle.ks_standby.specs.Replicas.{replica_view, changelogs_of};
ghost use Rattle.ks_shared.specs.Calls.{setup_in};
ghost use Rattle.ks_worker_client.specs.Turns.{counts_after};
ghost use Rattle.ks_worker_client.specs.Calls.{MayCall, Later, state_seen};
ghost use Rattle.ks_worker_state.specs.Standbys.{IsStandby, IsFedStandby, HasMoved, HasReadStable};

use ks_cluster::Work;
use ks_edge::Gate;
use ks_record::PartId;
use ks_shared::Shared;
use ks_standby::Replica;
use ks_task::MOST_FED;
use ks_worker_client::{ClusterClient, Halt, or_halt};
use std::alloc::Global;
use std::sync::Wait;

/// Feeds a replica what one fetch of one of its changelogs gives, at most 4,096 records; whether that moved it.
pub fn feed_from<R: Wait, W: Work, G: Gate>(
    rt: &R,
    alloc: Global,
    shared: &Shared<W>,
    client: &mut ClusterClient<W, G>,
    replica: &mut Replica,
    topic: u16,
) -> Result<bool, Halt>
    requires may { MayCall W.plan shared.now.growing.id client.old.pass client.old.gate }
    requires standby { IsStandby (setup_in W.plan client.old.pass.frame) client.old.pass.seen
        replica.old }
    requires topic { has_topic topic (changelogs_of replica.old) ≡ true }
    ensures gate { client.new.gate ≡ counts_after client.old.gate result }
    ensures later { Later W.plan client.old.pass client.new.pass }
    ensures made { client.new.pass.made ≡ client.old.pass.made }
    ensures fed { OnOk result (IsFedStandby (setup_in W.plan client.old.pass.frame)
        client.old.pass.seen client.new.pass.seen (topic ∷ []) replica.old replica.new) }
    ensures moves { IfOk result (λ moved. moved ≡ true → (replica_view replica.old).position topic
        < (replica_view replica.new).position topic) }
    ensures stops { IfOk result (λ moved. moved ≡ false
        → HasReadStable (setup_in W.plan client.old.pass.frame) client.old.pass.seen (topic ∷ [])
        (replica_view replica.new)) }
{
    let from = replica.position(topic);
    let part = PartId {
        topic,
        part: replica.id().part,
    };
    let (recs, next) = client.fetch(rt, alloc, shared, part, from, MOST_FED)?;
    or_halt(replica.feed(topic, recs, next))?;
    Ok(from < next)
}

// Whether one of two is so.
fn is_either(a: bool, b: bool) -> bool
    ensures { result ≡ (a || b) }
{
    a || b
}

/// Feeds a replica what one fetch of each of its changelogs gives; whether any moved it.
pub fn feed_once<R: Wait, W: Work, G: Gate>(
    rt: &R,
    alloc: Global,
    shared: &Shared<W>,
    client: &mut ClusterClient<W, G>,
    replica: &mut Replica,
    changelogs: &[u16],
) -> Result<bool, Halt>
    requires may { MayCall W.plan shared.now.growing.id client.old.pass client.old.gate }
    requires standby { IsStandby (setup_in W.plan client.old.pass.frame) client.old.pass.seen
        replica.old }
    requires changelogs { changelogs.now ≡ changelogs_of replica.old }
    ensures gate { client.new.gate ≡ counts_after client.old.gate result }
    ensures later { Later W.plan client.old.pass client.new.pass }
    ensures made { client.new.pass.made ≡ client.old.pass.made }
    ensures fed { OnOk result (IsFedStandby (setup_in W.plan client.old.pass.frame)
        client.old.pass.seen client.new.pass.seen changelogs.now replica.old replica.new) }
    ensures moves { IfOk result (λ moved. moved ≡ true
        → HasMoved changelogs.now (replica_view replica.old) (replica_view replica.new)) }
    ensures stops { IfOk result (λ moved. moved ≡ false
        → HasReadStable (setup_in W.plan client.old.pass.frame) client.old.pass.seen changelogs.now
        (replica_view replica.new)) }
{
    let mut moved = false;
    for i in 0..changelogs.len() {
        let moves = feed_from(rt, alloc, shared, client, replica, changelogs[i])?;
        moved = is_either(moved, moves);
    }
    Ok(moved)
}

/// Feeds a replica from one of its changelogs until it stands at this end of it or past it, or no fetch moves it.
fn feed_to<R: Wait, W: Work, G: Gate>(
    rt: &R,
    alloc: Global,
    shared: &Shared<W>,
    client: &mut ClusterClient<W, G>,
    replica: &mut Replica,
    topic: u16,
    end: u64,
) -> Result<(), Halt>
    requires may { MayCall W.plan shared.now.growing.id client.old.pass client.old.gate }
    requires standby { IsStandby (setup_in W.plan client.old.pass.frame) client.old.pass.seen
        replica.old }
    requires topic { has_topic topic (changelogs_of replica.old) ≡ true }
    ensures gate { client.new.gate ≡ counts_after client.old.gate result }
    ensures later { Later W.plan client.old.pass client.new.pass }
    ensures made { client.new.pass.made ≡ client.old.pass.made }
    ensures fed { OnOk result (IsFedStandby (setup_in W.plan client.old.pass.frame)
        client.old.pass.seen client.new.pass.seen [] replica.old replica.new) }
    ensures stops { OnOk result ((end ≤ (replica_view replica.new).position topic)
        ⊎ HasReadStable (setup_in W.plan client.old.pass.frame) client.old.pass.seen (topic ∷ [])
        (replica_view replica.new)) }
{
    for _ in rt.forever() {
        if end <= replica.position(topic) {
            return Ok(());
        }
        if !feed_from(rt, alloc, shared, client, replica, topic)? {
            return Ok(());
        }
    }
    unreachable!()
}

/// Feeds a replica from each of its changelogs until it stands at the end that was told of it or past it, or no fetch moves it; so it
/// has read all that was stable when the ends were told.
pub fn feed_to_ends<R: Wait, W: Work, G: Gate>(
    rt: &R,
    alloc: Global,
    shared: &Shared<W>,
    client: &mut ClusterClient<W, G>,
    replica: &mut Replica,
    changelogs: &[u16],
    ends: &[u64],
) -> Result<(), Halt>
    requires may { MayCall W.plan shared.now.growing.id client.old.pass client.old.gate }
    requires standby { IsStandby (setup_in W.plan client.old.pass.frame) client.old.pass.seen
        replica.old }
    requires changelogs { changelogs.now ≡ changelogs_of replica.old }
    requires ends { ends.now ≡ ends_of (state_seen W.plan client.old.pass)
        (map (λ topic. part_of topic replica.old.id) changelogs.now) }
    ensures gate { client.new.gate ≡ counts_after client.old.gate result }
    ensures later { Later W.plan client.old.pass client.new.pass }
    ensures made { client.new.pass.made ≡ client.old.pass.made }
    ensures fed { OnOk result (IsFedStandby (setup_in W.plan client.old.pass.frame)
        client.old.pass.seen client.new.pass.seen changelogs.now replica.old replica.new) }
    ensures stops { OnOk result (HasReadStable (setup_in W.plan client.old.pass.frame)
        client.old.pass.seen changelogs.now (replica_view replica.new)) }
{
    for i in 0..changelogs.len() {
        feed_to(rt, alloc, shared, client, replica, changelogs[i], ends[i])?;
    }
    Ok(())
}
