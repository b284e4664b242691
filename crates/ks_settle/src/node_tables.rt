//! The tables that a topology prints, as its changelogs keep them.
ghost use Rattle.std.specs.Prelude.{◌≡◌, ◌+◌, ◌≤◌, ℕ, [], map, IfOk, option_map};
ghost use Rattle.ks_topo.specs.Topologies.{draft_of, plan_in};
ghost use Rattle.ks_plan.specs.Drafts.{op_view};
ghost use Rattle.ks_plan.specs.Layout.{topics_of, parts_of_topic};
ghost use Rattle.ks_history.specs.State.{IsPart};
ghost use Rattle.ks_cluster.specs.View.{ClusterView, setup_of, state_of};
ghost use Rattle.ks_law_settled.specs.Folded.{folded_table, folded_tables};
ghost use Rattle.ks_settle.specs.Rows.{node_named, part_in, IsKept, IsPrinted};
ghost use Rattle.ks_settle.specs.Windows.{shown_rows};

use crate::rows::table_rows;
use crate::windows::window_rows;
use ks_cluster::{Cluster, Work};
use ks_query::{Table, TableRow};
use ks_record::Seq;
use ks_topo::{Node, Op, Topology};
use std::alloc::{AllocError, Global};
use std::thread::Threads;

// The first node of this name.
fn find_node<'a>(nodes: &'a [Node], name: &[u8]) -> Option<&'a Node>
    ensures { option_map (λ n. n.now) result ≡ node_named nodes.now name.now }
{
    let mut rest = nodes;
    while let [first, more @ ..] = rest {
        if first.name.as_str().as_bytes() == name {
            return Some(first);
        }
        rest = more;
    }
    None
}

// The node of a printed name, and the number of its changelog.
fn find_changelog<'a>(topology: &'a Topology, name: &[u8]) -> (&'a Node, u16)
    requires { IsPrinted (draft_of topology.now) name.now }
    ensures { IsKept (draft_of topology.now) name.now result.0.now result.1 }
{
    let Some(node) = find_node(topology.nodes(), name) else {
        unreachable!();
    };
    let Some(topic) = node.store else {
        unreachable!();
    };
    (node, topic)
}

// The rows that a node shows, over all partitions of its changelog.
fn node_rows<R: Threads + Sync, W: Work + Sync>(
    rt: &R,
    alloc: Global,
    cluster: &Cluster<W>,
    node: &Node,
    topic: u16,
    seed: u64,
) -> Result<Vec<TableRow>, AllocError>
    requires parts { (part : ℕ) → part + 1 ≤ node.now.parts
        → IsPart (setup_of W.plan cluster.now) (part_in topic part) }
    ensures { IfOk result (λ v. v.items ≡ shown_rows (op_view node.now.op)
        (state_of W.plan cluster.now) topic node.now.parts) }
{
    match &node.op {
        Op::WindowedCount { .. } => window_rows(alloc, cluster, topic, node.parts, seed),
        op => table_rows(rt, alloc, cluster, op, topic, node.parts, seed),
    }
}

fn table_of<R: Threads + Sync, W: Work + Sync>(
    rt: &R,
    alloc: Global,
    topology: &Topology,
    cluster: &Cluster<W>,
    name: &[u8],
) -> Result<Table, AllocError>
    requires counts { cluster.now.counts ≡ map (parts_of_topic (plan_in topology.now))
        (topics_of (plan_in topology.now)) }
    requires printed { IsPrinted (draft_of topology.now) name.now }
    ensures { IfOk result (λ t. t ≡ folded_table (draft_of topology.now)
        (state_of W.plan cluster.now) name.now) }
{
    let (node, topic) = find_changelog(topology, name);
    let rows = node_rows(rt, alloc, cluster, node, topic, topology.seed())?;
    Ok(Table {
        name: node.name.clone()?,
        rows: Seq::of(rows),
    })
}

/// The printed tables of a topology, in the order of `print`: of each the rows that the decided records of its changelog keep, over
/// all partitions, by key bytes; of a windowed count by key bytes and start of the window. The partitions of a table that is none are
/// read side by side where threads can be made. `Err` only where memory ran out.
pub fn tables<R: Threads + Sync, W: Work + Sync>(
    rt: &R,
    alloc: Global,
    topology: &Topology,
    cluster: &Cluster<W>,
) -> Result<Vec<Table>, AllocError>
    requires counts { cluster.now.counts ≡ map (parts_of_topic (plan_in topology.now))
        (topics_of (plan_in topology.now)) }
    ensures { IfOk result (λ v. v.items ≡ folded_tables (draft_of topology.now)
        (state_of W.plan cluster.now)) }
{
    let names = topology.print();
    let mut tables = Vec::new(alloc);
    for i in 0..names.len() {
        tables.push(table_of(rt, alloc, topology, cluster, names[i].as_slice())?)?;
    }
    Ok(tables)
}
