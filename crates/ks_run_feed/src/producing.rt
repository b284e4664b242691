//! Appends the records of a job through a lock's first pass.
ghost use Rattle.std.specs.Prelude.{◌≡◌, ℕ, ◌<◌, ◌≤◌, [], ◌∷◌, OnOk, OnErr, IfOk, map, option_copied};
ghost use Rattle.ks_job.specs.Items.{item_views};
ghost use Rattle.ks_law_inputs.specs.Records.{AreRecords};
ghost use Rattle.ks_growing.specs.Passes.{IsPass};
ghost use Rattle.ks_shared.specs.Calls.{setup_in};
ghost use Rattle.ks_topo.specs.Topologies.{plan_in};
ghost use Rattle.ks_topo.specs.Places.{spread_in, HasPlaces};
ghost use Rattle.ks_run_feed.specs.Placing.{counts_in, part_at, placed, placed_all};
ghost use Rattle.ks_run_feed.specs.Producing.{HasProduced, HasProducedFront};

use ks_cluster::Work;
use ks_growing::Pass;
use ks_job::JobItem;
use ks_record::{PartId, Rec};
use ks_shared::{Shared, SharedState};
use ks_topo::{TopicInfo, Topology};
use std::alloc::{AllocError, Global};
use std::sync::Wait;

/// The partition count of each topic, by number.
pub fn counts_of(alloc: Global, infos: &[TopicInfo]) -> Result<Vec<u8>, AllocError>
    ensures { IfOk result (λ v. v.items ≡ map (λ i. i.parts) infos.now) }
{
    let mut counts = Vec::new(alloc);
    for info in infos {
        counts.push(info.parts)?;
    }
    Ok(counts)
}

// The place of a key in a topic; without a key the first partition.
fn place_of(topology: &Topology, topic: u16, key: Option<&[u8]>) -> u8
    requires { HasPlaces (plan_in topology.now) topic }
    ensures part { result ≡ part_at (option_copied key.entry)
        (spread_in (plan_in topology.now) topic) }
    ensures below { result < (spread_in (plan_in topology.now) topic).parts }
{
    match key {
        Some(key) => topology.place(topic, key),
        None => 0,
    }
}

// The place of a record in a topic: that of its key.
fn part_of(topology: &Topology, topic: u16, rec: &Rec) -> u8
    requires { HasPlaces (plan_in topology.now) topic }
    ensures part { result ≡ part_at rec.now.key (spread_in (plan_in topology.now) topic) }
    ensures below { result < (spread_in (plan_in topology.now) topic).parts }
{
    place_of(topology, topic, rec.key())
}

// One record, to the place of its key.
fn produce_one<R: Wait, W: Work>(
    rt: &R,
    alloc: Global,
    topology: &Topology,
    shared: &Shared<W>,
    topic: u16,
    rec: &Rec,
    pass: &mut Pass<SharedState<W>>,
) -> Result<(), AllocError>
    requires pass { IsPass shared.now.growing.id 0 pass.old }
    requires counts { counts_in (plan_in topology.now) ≡ (setup_in W.plan pass.old.frame).counts }
    requires source { topic < (setup_in W.plan pass.old.frame).plan.sources }
    requires places { HasPlaces (plan_in topology.now) topic }
    ensures ok { OnOk result (HasProduced pass.old pass.new
        (placed (plan_in topology.now) topic rec.now ∷ [])) }
    ensures err { OnErr result (HasProduced pass.old pass.new []) }
{
    let part = part_of(topology, topic, rec);
    shared.produce(rt, alloc, PartId { topic, part }, rec, pass)?;
    Ok(())
}

/// All records among a job's items, in their order, each to the place of its key. Want of memory is the one error; a front of them is produced then.
pub fn produce_all<R: Wait, W: Work>(
    rt: &R,
    alloc: Global,
    topology: &Topology,
    shared: &Shared<W>,
    items: Vec<JobItem>,
    pass: &mut Pass<SharedState<W>>,
) -> Result<(), AllocError>
    requires pass { IsPass shared.now.growing.id 0 pass.old }
    requires counts { counts_in (plan_in topology.now) ≡ (setup_in W.plan pass.old.frame).counts }
    requires places { (topic : ℕ) → topic < (setup_in W.plan pass.old.frame).plan.sources
        → HasPlaces (plan_in topology.now) topic }
    requires records { AreRecords (setup_in W.plan pass.old.frame).plan.sources
        (item_views items.items) }
    ensures ok { OnOk result (HasProduced pass.old pass.new (placed_all (plan_in topology.now)
        (item_views items.items))) }
    ensures err { OnErr result (HasProducedFront pass.old pass.new
        (placed_all (plan_in topology.now) (item_views items.items))) }
{
    let mut rest = items.into_iter();
    while let Some(item) = rest.next() {
        match item {
            JobItem::Topology { .. } => unreachable!(),
            JobItem::Input { topic, rec } => {
                produce_one(rt, alloc, topology, shared, topic, &rec, pass)?
            }
        }
    }
    Ok(())
}
