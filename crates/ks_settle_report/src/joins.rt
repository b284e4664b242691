//! Hash collisions in the changelogs of the left sides of joins on a foreign key.
ghost use Rattle.std.specs.Prelude.{◌≡◌, ◌+◌, ◌≤◌, IfOk, length, map, option_map};
ghost use Rattle.ks_plan.specs.Layout.{kind_at, parts_of, parts_of_topic, topics_of, up_to};
ghost use Rattle.ks_topo.specs.Topologies.{draft_of, plan_in};
ghost use Rattle.ks_cluster.specs.View.{state_of};
ghost use Rattle.ks_law_settled.specs.Collision.{first_pair, in_parts, of_node};
ghost use Rattle.ks_settle_report.specs.Hashed.{row_hash, pair_of};
ghost use Rattle.ks_settle_report.specs.Joins.{HasChangelog, IsAt, join_pair, left_in, named};

use crate::Collision;
use crate::collisions::first_in_parts;
use ks_cluster::{Cluster, Work};
use ks_hash::Hash128;
use ks_record::Name;
use ks_settle::rows::form_of;
use ks_topo::{Node, Topology, Wiring};
use std::alloc::{AllocError, Global};
use std::thread::Threads;

/// Two records that collide in the changelog of the left side of a join on a foreign key.
#[derive(Drop)]
pub struct JoinCollision {
    /// The name of the join.
    pub node: Name,
    /// The key of both records, and their offsets.
    pub records: Collision,
}

// The left side of a join on a foreign key.
fn left_of(wiring: Wiring) -> Option<u8>
    ensures { result ≡ left_in wiring }
{
    match wiring {
        Wiring::ForeignKeyJoin { left, .. } => Some(left),
        _ => None,
    }
}

fn node_at<'a>(topology: &'a Topology, place: usize) -> &'a Node
    requires { place + 1 ≤ length (plan_in topology.now).kinds }
    ensures { IsAt (draft_of topology.now) place result.now }
{
    let nodes = topology.nodes();
    &nodes[place]
}

// The first collision in the changelog of a node.
fn first_in_changelog<H: Hash128 + Sync, R: Threads + Sync, W: Work + Sync>(
    rt: &R,
    alloc: Global,
    cluster: &Cluster<W>,
    topology: &Topology,
    place: u8,
) -> Result<Option<Collision>, AllocError>
    requires counts { cluster.now.counts ≡ map (parts_of_topic (plan_in topology.now))
        (topics_of (plan_in topology.now)) }
    requires changelog { HasChangelog (plan_in topology.now) place }
    ensures { IfOk result (λ o. option_map pair_of o
        ≡ in_parts (row_hash H.hash_of) (plan_in topology.now)
        (state_of W.plan cluster.now) place (up_to (parts_of (plan_in topology.now) place))) }
{
    let node = node_at(topology, place as usize);
    let Some(topic) = node.store else {
        unreachable!();
    };
    first_in_parts::<H, R, W>(rt, alloc, cluster, form_of(&node.op), topic, node.parts)
}

// The first collision of a node, where it is a join on a foreign key.
fn first_of_node<H: Hash128 + Sync, R: Threads + Sync, W: Work + Sync>(
    rt: &R,
    alloc: Global,
    cluster: &Cluster<W>,
    topology: &Topology,
    place: usize,
) -> Result<Option<JoinCollision>, AllocError>
    requires counts { cluster.now.counts ≡ map (parts_of_topic (plan_in topology.now))
        (topics_of (plan_in topology.now)) }
    requires node { place + 1 ≤ length (plan_in topology.now).kinds }
    ensures { IfOk result (λ o. option_map join_pair o ≡ option_map (named (draft_of topology.now))
        (of_node (row_hash H.hash_of) (plan_in topology.now) (state_of W.plan cluster.now) place
        (kind_at (plan_in topology.now) place))) }
{
    let node = node_at(topology, place);
    let Some(left) = left_of(node.wiring) else {
        return Ok(None);
    };
    let Some(records) = first_in_changelog::<H, R, W>(rt, alloc, cluster, topology, left)? else {
        return Ok(None);
    };
    Ok(Some(JoinCollision {
        node: node.name.clone()?,
        records,
    }))
}

/// The first hash collision of the joins on a foreign key: by join, partition of its left side's changelog, greater and lesser offset.
/// A left side of several joins is searched for each. `Err` only where memory ran out.
pub fn first_in_joins<H: Hash128 + Sync, R: Threads + Sync, W: Work + Sync>(
    rt: &R,
    alloc: Global,
    cluster: &Cluster<W>,
    topology: &Topology,
) -> Result<Option<JoinCollision>, AllocError>
    requires { cluster.now.counts ≡ map (parts_of_topic (plan_in topology.now))
        (topics_of (plan_in topology.now)) }
    ensures { IfOk result (λ o. option_map join_pair o ≡ option_map (named (draft_of topology.now))
        (first_pair (row_hash H.hash_of) (plan_in topology.now) (state_of W.plan cluster.now))) }
{
    let nodes = topology.nodes();
    for place in 0..nodes.len() {
        if let Some(found) = first_of_node::<H, R, W>(rt, alloc, cluster, topology, place)? {
            return Ok(Some(found));
        }
    }
    Ok(None)
}
