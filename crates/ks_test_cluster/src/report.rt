//! What a report says of a cluster of one table, at the stages of one commit. Want of memory ends the test.
ghost use Rattle.std.specs.Prelude.{◌≡◌, ◌∷◌, []};
ghost use Rattle.ks_plan.specs.Drafts.{draft_view, nodes_view, node_view, TableOf};
ghost use Rattle.ks_topo.specs.Topologies.{draft_of};
ghost use Rattle.ks_test_cluster.specs.Ours.{IsOurs};
ghost use Rattle.ks_test_cluster.specs.Table.{table_draft, letter_t, letter_x};

use crate::calls::fetch;
use crate::commit::{decide, mark, produce, send};
use crate::copying::Copying;
use crate::tables::{OneRecord, expect_text, fresh, record};
use ks_cluster::Cluster;
use ks_hash::Murmur3;
use ks_plan::{Draft, NodeDraft, Op, TopicDraft};
use ks_record::{Blob, Name, Seq};
use ks_settle_report::{Lag, Report, report};
use ks_topo::Topology;
use std::alloc::{AllocError, Global};
use std::process::Abort;
use std::thread::Threads;

fn name<R: Abort>(rt: &R, alloc: Global, letter: &[u8; 1]) -> Name
    ensures { result ≡ letter.now }
{
    match Name::of(alloc, letter) {
        Ok(Some(name)) => name,
        _ => rt.abort(),
    }
}

fn bytes<R: Abort>(rt: &R, alloc: Global, letter: &[u8; 1]) -> Blob
    ensures { result ≡ letter.now }
{
    match Blob::from_slice(alloc, letter) {
        Ok(bytes) => bytes,
        Err(_) => rt.abort(),
    }
}

// The topic t, of one partition.
fn topics<R: Abort>(rt: &R, alloc: Global) -> Seq<(Name, TopicDraft)>
    ensures { result ≡ table_draft.topics }
{
    let topic = TopicDraft {
        parts: 1,
        before: None,
    };
    match vec![in alloc; (name(rt, alloc, b"t"), topic)] {
        Ok(topics) => Seq::of(topics),
        Err(_) => rt.abort(),
    }
}

// The table x of it.
fn table<R: Abort>(rt: &R, alloc: Global) -> NodeDraft
    ensures { node_view result ≡ record { name = letter_x; op = TableOf letter_t } }
{
    let name = name(rt, alloc, b"x");
    let topic = bytes(rt, alloc, b"t");
    NodeDraft {
        name,
        op: Op::Table { topic },
    }
}

fn nodes<R: Abort>(rt: &R, alloc: Global) -> Seq<NodeDraft>
    ensures { nodes_view result ≡ table_draft.nodes }
{
    let table = table(rt, alloc);
    match vec![in alloc; table] {
        Ok(nodes) => Seq::of(nodes),
        Err(_) => rt.abort(),
    }
}

fn printed<R: Abort>(rt: &R, alloc: Global) -> Seq<Blob>
    ensures { result ≡ table_draft.print }
{
    let name = bytes(rt, alloc, b"x");
    match vec![in alloc; name] {
        Ok(names) => Seq::of(names),
        Err(_) => rt.abort(),
    }
}

fn draft<R: Abort>(rt: &R, alloc: Global) -> Draft
    ensures { draft_view result ≡ table_draft }
{
    let app = name(rt, alloc, b"a");
    let print = printed(rt, alloc);
    let topics = topics(rt, alloc);
    let nodes = nodes(rt, alloc);
    Draft {
        app,
        topics,
        nodes,
        print,
    }
}

fn topology<R: Abort>(rt: &R, alloc: Global) -> Topology
    ensures { draft_of result ≡ table_draft }
{
    match Topology::build(alloc, draft(rt, alloc)) {
        Ok(Ok(topology)) => topology,
        _ => rt.abort(),
    }
}

fn push_lags(text: &mut String, lags: &[Lag]) -> Result<(), AllocError> {
    for lag in lags {
        write!(
            text,
            ", {}/{} committed {} end {}",
            lag.part.topic, lag.part.part, lag.committed, lag.end
        )?;
    }
    Ok(())
}

/// What is settled, how many producers are pending, and each lag with its committed offset and end.
fn report_text(alloc: Global, report: &Report) -> Result<String, AllocError> {
    let mut text = format!(in alloc; "settled {}, pending {}", report.settled, report.pending)?;
    push_lags(&mut text, report.lags.as_slice())?;
    Ok(text)
}

fn told<R: Threads + Sync>(
    rt: &R,
    alloc: Global,
    cluster: &Cluster<Copying>,
    topology: &Topology,
) -> Result<String, AllocError>
    requires ours { IsOurs cluster.now }
    requires table { draft_of topology.now ≡ table_draft }
{
    let report = report::<Murmur3, R, Copying>(rt, alloc, cluster, topology)?;
    let text = report_text(alloc, &report);
    drop(report);
    text
}

const BEHIND: &str = "settled false, pending 0, 0/0 committed 0 end 1";

const PENDING: &str = "settled false, pending 1, 0/0 committed 0 end 1";

// The report tells this.
fn expect<R: Threads + Sync + Abort>(
    rt: &R,
    alloc: Global,
    cluster: &Cluster<Copying>,
    topology: &Topology,
    expected: &str,
)
    requires ours { IsOurs cluster.now }
    requires table { draft_of topology.now ≡ table_draft }
{
    match told(rt, alloc, cluster, topology) {
        Ok(text) => expect_text(rt, text.as_bytes(), expected.as_bytes()),
        Err(_) => rt.abort(),
    }
}

// A fetch of the input answers this.
fn expect_fetch<R: Abort>(rt: &R, alloc: Global, cluster: &Cluster<Copying>, expected: &str)
    requires { IsOurs cluster.now }
{
    match fetch(alloc, cluster, 0, 0, 10) {
        Ok(text) => expect_text(rt, text.as_bytes(), expected.as_bytes()),
        Err(_) => rt.abort(),
    }
}

// At each stage of a commit of this record, in a new cluster; what was read and isn't committed doesn't count.
fn expect_stages<R: Threads + Sync + Abort>(
    rt: &R,
    alloc: Global,
    cluster: &mut Cluster<Copying>,
    topology: &Topology,
    recs: &OneRecord,
) -> Result<(), AllocError>
    requires ours { IsOurs cluster.old }
    requires new { cluster.old.journal ≡ [] }
    requires table { draft_of topology.now ≡ table_draft }
    requires one { recs.now.list ≡ recs.now.rec ∷ [] }
{
    produce(alloc, cluster, &recs.rec)?;
    expect(rt, alloc, cluster, topology, BEHIND);
    expect_fetch(rt, alloc, cluster, "1 to 1");
    expect(rt, alloc, cluster, topology, BEHIND);
    send(alloc, cluster, &recs.rec, &recs.list)?;
    expect(rt, alloc, cluster, topology, PENDING);
    decide(alloc, cluster, &recs.rec)?;
    expect(rt, alloc, cluster, topology, "settled false, pending 1");
    mark(alloc, cluster, &recs.rec)?;
    expect(rt, alloc, cluster, topology, "settled true, pending 0");
    Ok(())
}

#[test]
fn a_report_at_each_stage_of_a_commit(rt: HostRuntime) {
    let topology = topology(&rt, rt.alloc());
    let recs = record(&rt, rt.alloc());
    let mut cluster = fresh(&rt, rt.alloc());
    expect_stages(&rt, rt.alloc(), &mut cluster, &topology, &recs).expect(&rt, "memory");
    drop(cluster);
    drop(recs);
    drop(topology);
}
