//! A draft judged as a whole, with what each of its nodes is.
ghost use Rattle.std.specs.Prelude.{◌≡◌, ◌≤◌, length, IfOk, OnOk, ◌<◌, take, drop, fold, false, []};
ghost use Rattle.ks_plan.specs.Drafts.{draft_view, nodes_view};
ghost use Rattle.ks_plan.specs.Plan.{plan_of, with_topic};
ghost use Rattle.ks_plan.specs.Faults.{first_fitting, size_lines, any_past, nodes_fault, printed_fault, print_lines, parts_fault};
ghost use Rattle.ks_topo.specs.Finds.{Finds};
ghost use Rattle.ks_topo.specs.Earlier.{IsEarlier, fault_at, IsNode};
ghost use Rattle.ks_topo_layout.specs.Resolve.{resolved_from};

use crate::check::{Earlier, check_node, duplicate, too_many, unknown, wiring_of, wrong_kind};
use crate::stop::Refusal;
use ks_plan::{Draft, NodeDraft, TopicDraft};
use ks_record::{Blob, Name};
use ks_topo_layout::{Resolved, gives_stream, is_listed, is_node, push_origin, push_parts};
use std::alloc::Global;

fn is_any_past(topics: &[(Name, TopicDraft)]) -> bool
    ensures { result ≡ any_past topics.now }
{
    for (_, topic) in topics {
        if topic.parts > 64 {
            return true;
        }
    }
    false
}

/// Too many topics, partitions of a topic, or nodes.
pub fn judge_sizes(alloc: Global, draft: &Draft) -> Result<(), Refusal>
    ensures found { Finds result (first_fitting (size_lines (draft_view draft.now))) }
    ensures topics { OnOk result (length draft.now.topics ≤ 64) }
    ensures nodes { OnOk result (length draft.now.nodes ≤ 64) }
    ensures counts { OnOk result (any_past draft.now.topics ≡ false) }
{
    if draft.topics.len() > 64 {
        return Err(Refusal::Fault(too_many(alloc, "topics", 64)?));
    }
    if is_any_past(draft.topics.as_slice()) {
        return Err(Refusal::Fault(too_many(alloc, "partitions", 64)?));
    }
    if draft.nodes.len() > 64 {
        return Err(Refusal::Fault(too_many(alloc, "nodes", 64)?));
    }
    Ok(())
}

// The nodes before this number.
fn nodes_before(nodes: &[NodeDraft], i: usize) -> &[NodeDraft]
    requires { i ≤ length nodes.now }
    ensures { result.now ≡ take i nodes.now }
{
    &nodes[..i]
}

// The tests of one node, by its number; else what it is.
fn judge_node(
    alloc: Global,
    draft: &Draft,
    sorted: &[(Name, TopicDraft)],
    i: usize,
    known: &[Resolved],
    parts: &[u8],
    origins: &[Option<u16>],
) -> Result<Resolved, Refusal>
    requires within { i < length draft.now.nodes }
    requires nodes { length draft.now.nodes ≤ 64 }
    requires topics { length draft.now.topics ≤ 64 }
    requires sorted { sorted.now ≡ fold with_topic [] draft.now.topics }
    requires known { known.now ≡ resolved_from draft.now.topics
        (nodes_view (take i draft.now.nodes)) }
    ensures found { Finds result (fault_at draft.now parts.now origins.now (take i draft.now.nodes)
        (drop i draft.now.nodes)) }
    ensures resolved { IfOk result (λ r. IsNode draft.now.topics (take i draft.now.nodes)
        (drop i draft.now.nodes) r) }
{
    let nodes = draft.nodes.as_slice();
    let earlier = Earlier {
        topics: draft.topics.as_slice(),
        sorted,
        nodes: nodes_before(nodes, i),
        known,
    };
    check_node(alloc, &draft.app, earlier, parts, origins, &nodes[i])
}

fn judge_nodes(
    alloc: Global,
    draft: &Draft,
    sorted: &[(Name, TopicDraft)],
    counts: &[u8],
) -> Result<Vec<Resolved>, Refusal>
    requires nodes { length draft.now.nodes ≤ 64 }
    requires topics { length draft.now.topics ≤ 64 }
    requires sorted { sorted.now ≡ fold with_topic [] draft.now.topics }
    requires counts { counts.now ≡ (plan_of (draft_view draft.now)).counts }
    ensures found { Finds result (nodes_fault (draft_view draft.now) []
        (nodes_view draft.now.nodes)) }
    ensures known { IfOk result (λ ks. ks.items
        ≡ resolved_from draft.now.topics (nodes_view draft.now.nodes)) }
{
    let mut known = Vec::new(alloc);
    let mut parts = Vec::new(alloc);
    let mut origins = Vec::new(alloc);
    for i in 0..draft.nodes.len() {
        let next = judge_node(alloc, draft, sorted, i, &known, &parts, &origins)?;
        push_parts(counts, &mut parts, next.wiring)?;
        push_origin(&mut origins, next.wiring)?;
        known.push(next)?;
    }
    Ok(known)
}

fn check_print(alloc: Global, all: Earlier<'_>, before: &[Blob], name: &Blob) -> Result<(), Refusal>
    requires { IsEarlier all }
    ensures { Finds result (first_fitting (print_lines all.entry.topics.now
        (nodes_view all.entry.nodes.now) before.now name.now)) }
{
    if !is_node(all.nodes, name.as_slice()) {
        return Err(Refusal::Fault(unknown(alloc, name.as_slice())?));
    }
    if is_listed(before, name.as_slice()) {
        return Err(Refusal::Fault(duplicate(alloc, name.as_slice())?));
    }
    if gives_stream(wiring_of(all, name)) {
        return Err(Refusal::Fault(wrong_kind(alloc, name.as_slice())?));
    }
    Ok(())
}

fn judge_print(alloc: Global, all: Earlier<'_>, print: &[Blob]) -> Result<(), Refusal>
    requires { IsEarlier all }
    ensures { Finds result (printed_fault all.entry.topics.now (nodes_view all.entry.nodes.now) []
        print.now) }
{
    for i in 0..print.len() {
        check_print(alloc, all, &print[..i], &print[i])?;
    }
    Ok(())
}

/// The first fault of a draft that is not too large, else what its nodes are. The partition counts of its topics are given by number.
pub fn judge_parts(
    alloc: Global,
    draft: &Draft,
    sorted: &[(Name, TopicDraft)],
    counts: &[u8],
) -> Result<Vec<Resolved>, Refusal>
    requires nodes { length draft.now.nodes ≤ 64 }
    requires topics { length draft.now.topics ≤ 64 }
    requires sorted { sorted.now ≡ fold with_topic [] draft.now.topics }
    requires counts { counts.now ≡ (plan_of (draft_view draft.now)).counts }
    ensures found { Finds result (parts_fault (draft_view draft.now)) }
    ensures known { IfOk result (λ ks. ks.items
        ≡ resolved_from draft.now.topics (nodes_view draft.now.nodes)) }
{
    let known = judge_nodes(alloc, draft, sorted, counts)?;
    let all = Earlier {
        topics: draft.topics.as_slice(),
        sorted,
        nodes: draft.nodes.as_slice(),
        known: known.as_slice(),
    };
    judge_print(alloc, all, draft.print.as_slice())?;
    Ok(known)
}
