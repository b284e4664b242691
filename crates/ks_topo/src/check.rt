//! The tests that a node of a draft has to pass after those before it, in their order.
ghost use Rattle.std.specs.Prelude.{◌≡◌, ◌≤◌, ◌++◌, length, IfOk, Some, None, pos, true, ◌≤ℤ◌, not, nat_lt, codes, option_copied};
ghost use Rattle.std.specs.Option.{option_to_list};
ghost use Rattle.ks_plan.specs.declared.fault.TopoFault.TheVariants.{UnknownInput, WrongKind, DuplicateName, NotCopartitioned, TooMany, BadWindow, SinkOnly};
ghost use Rattle.ks_plan.specs.Drafts.{draft_view, nodes_view, op_view, node_view};
ghost use Rattle.ks_plan.specs.Plan.{gives_windows as are_windows, node_number, befores_in};
ghost use Rattle.ks_plan.specs.Layout.{at, stated_for};
ghost use Rattle.ks_plan.specs.Faults.{same_before, are_apart, first_fitting, first_of, node_lines, one_line, has_name, names_of, names_of_topics, unknown_lines, taken_lines, topics_in, inputs_in, sources_of, set_length, sink_lines, kind_lines, window_lines, is_window as is_good_window, is_time as within_times, is_advance as suits_size, wrong_kind as is_wrong_kind, wiring_in, sinks_among, kinds_among, sides_among};
ghost use Rattle.ks_topo.specs.Finds.{Finds};
ghost use Rattle.ks_topo.specs.Earlier.{IsEarlier, known_of};
ghost use Rattle.ks_plan.specs.Infos.{internal_names};
ghost use Rattle.ks_topo_layout.specs.Resolve.{resolved_op};

use crate::stop::Refusal;
use ks_plan::{NodeDraft, Op, TopicDraft, TopoFault, Wiring};
use ks_record::{Blob, Name, equal_bytes};
use ks_topo_layout::{
    Resolved, find_input, gives_stream, internal_name, is_node, is_source, is_topic, number_at,
    origin_at, push_changelogs, push_through, resolve_op,
};
use std::alloc::{AllocError, Global};

fn blob_of(alloc: Global, bytes: &[u8]) -> Result<Blob, AllocError>
    ensures { IfOk result (λ b. b ≡ bytes.now) }
{
    Blob::from_slice(alloc, bytes)
}

/// More of something than the limit.
pub fn too_many(alloc: Global, what: &str, limit: u64) -> Result<TopoFault, AllocError>
    ensures { IfOk result (λ f. f ≡ TooMany what.now limit) }
{
    Ok(TopoFault::TooMany {
        what: blob_of(alloc, what.as_bytes())?,
        limit,
    })
}

/// The fault of an input that no topic or node has the name of.
pub fn unknown(alloc: Global, name: &[u8]) -> Result<TopoFault, AllocError>
    ensures { IfOk result (λ f. f ≡ UnknownInput name.now) }
{
    Ok(TopoFault::UnknownInput {
        name: blob_of(alloc, name)?,
    })
}

/// The fault of a name that two have.
pub fn duplicate(alloc: Global, name: &[u8]) -> Result<TopoFault, AllocError>
    ensures { IfOk result (λ f. f ≡ DuplicateName name.now) }
{
    Ok(TopoFault::DuplicateName {
        name: blob_of(alloc, name)?,
    })
}

/// The fault of an input of the wrong kind, of this name.
pub fn wrong_kind(alloc: Global, name: &[u8]) -> Result<TopoFault, AllocError>
    ensures { IfOk result (λ f. f ≡ WrongKind name.now) }
{
    Ok(TopoFault::WrongKind {
        name: blob_of(alloc, name)?,
    })
}

fn set_len(op: &Op) -> usize
    ensures { result ≡ set_length (op_view op.now) }
{
    match op {
        Op::MapValues { set, .. } => set.fields.len(),
        Op::Join { set, .. } => set.fields.len(),
        Op::FkJoin { set, .. } => set.fields.len(),
        _ => 0,
    }
}

fn check_name(alloc: Global, before: &[NodeDraft], node: &NodeDraft) -> Result<(), Refusal>
    ensures { Finds result (first_fitting (one_line
        (has_name (names_of (nodes_view before.now)) node.now.name)
        (DuplicateName node.now.name))) }
{
    let name = node.name.as_str().as_bytes();
    if is_node(before, name) {
        return Err(Refusal::Fault(duplicate(alloc, name)?));
    }
    Ok(())
}

fn check_fields(alloc: Global, op: &Op) -> Result<(), Refusal>
    ensures { Finds result (first_fitting (one_line (nat_lt 64 (set_length (op_view op.now)))
        (TooMany (codes "fields") 64))) }
{
    if set_len(op) > 64 {
        return Err(Refusal::Fault(too_many(alloc, "fields", 64)?));
    }
    Ok(())
}

fn check_topic(alloc: Global, topics: &[(Name, TopicDraft)], op: &Op) -> Result<(), Refusal>
    ensures { Finds result (first_fitting (unknown_lines (names_of_topics topics.now)
        (topics_in (op_view op.now)))) }
{
    match op {
        Op::Stream { topic } | Op::Table { topic } => {
            if !is_topic(topics, topic.as_slice()) {
                return Err(Refusal::Fault(unknown(alloc, topic.as_slice())?));
            }
            Ok(())
        }
        _ => Ok(()),
    }
}

fn check_new_topic(alloc: Global, before: &[NodeDraft], op: &Op) -> Result<(), Refusal>
    ensures { Finds result (first_fitting (taken_lines (sources_of (nodes_view before.now))
        (topics_in (op_view op.now)))) }
{
    match op {
        Op::Stream { topic } | Op::Table { topic } => {
            if is_source(before, topic.as_slice()) {
                return Err(Refusal::Fault(duplicate(alloc, topic.as_slice())?));
            }
            Ok(())
        }
        _ => Ok(()),
    }
}

/// The nodes that an operation reads, by name.
#[derive(Clone, Copy)]
struct Inputs<'a> {
    first: Option<&'a Blob>,
    second: Option<&'a Blob>,
}

fn inputs_of(op: &Op) -> Inputs<'_>
    ensures { option_to_list (option_copied result.first)
        ++ option_to_list (option_copied result.second) ≡ inputs_in (op_view op.now) }
{
    let none = Inputs {
        first: None,
        second: None,
    };
    match op {
        Op::Stream { .. } | Op::Table { .. } => none,
        Op::Filter { from, .. } | Op::MapValues { from, .. } | Op::SelectKey { from, .. } =>
            Inputs {
                first: Some(from),
                second: None,
            },
        Op::Count { from, .. } | Op::Sum { from, .. } | Op::WindowedCount { from, .. } => Inputs {
            first: Some(from),
            second: None,
        },
        Op::Join { left, right, .. } | Op::FkJoin { left, right, .. } => Inputs {
            first: Some(left),
            second: Some(right),
        },
    }
}

fn check_input(alloc: Global, before: &[NodeDraft], name: Option<&Blob>) -> Result<(), Refusal>
    ensures { Finds result (first_fitting (unknown_lines (names_of (nodes_view before.now))
        (option_to_list (option_copied name.entry)))) }
{
    if let Some(name) = name {
        if !is_node(before, name.as_slice()) {
            return Err(Refusal::Fault(unknown(alloc, name.as_slice())?));
        }
    }
    Ok(())
}

fn check_inputs(alloc: Global, before: &[NodeDraft], op: &Op) -> Result<(), Refusal>
    ensures { Finds result (first_fitting (unknown_lines (names_of (nodes_view before.now))
        (inputs_in (op_view op.now)))) }
{
    let inputs = inputs_of(op);
    check_input(alloc, before, inputs.first)?;
    check_input(alloc, before, inputs.second)
}

/// What stands before a node: the topics, and the nodes as they are in the draft and as they were resolved.
#[derive(Clone, Copy)]
pub struct Earlier<'a> {
    pub topics: &'a [(Name, TopicDraft)],
    /// The topics in order of their names.
    pub sorted: &'a [(Name, TopicDraft)],
    pub nodes: &'a [NodeDraft],
    pub known: &'a [Resolved],
}

/// What an earlier node of this name is.
pub fn wiring_of(earlier: Earlier<'_>, name: &Blob) -> Wiring
    requires { IsEarlier earlier }
    ensures { result ≡ wiring_in (known_of earlier.entry) name.now }
{
    find_input(
        earlier.topics,
        earlier.nodes,
        earlier.known,
        name.as_slice(),
    )
    .wiring
}

fn gives_windows(wiring: Wiring) -> bool
    ensures { result ≡ are_windows wiring }
{
    match wiring {
        Wiring::Windowed { .. } => true,
        _ => false,
    }
}

fn check_sink(
    alloc: Global,
    earlier: Earlier<'_>,
    node: &Name,
    input: Option<&Blob>,
) -> Result<(), Refusal>
    requires { IsEarlier earlier }
    ensures { Finds result (first_fitting (sinks_among (known_of earlier.entry) node.now
        (option_to_list (option_copied input.entry)))) }
{
    if let Some(input) = input {
        if gives_windows(wiring_of(earlier, input)) {
            let name = blob_of(alloc, node.as_str().as_bytes())?;
            return Err(Refusal::Fault(TopoFault::SinkOnly { name }));
        }
    }
    Ok(())
}

fn check_sinks(alloc: Global, earlier: Earlier<'_>, node: &NodeDraft) -> Result<(), Refusal>
    requires { IsEarlier earlier }
    ensures { Finds result (first_fitting (sink_lines (known_of earlier.entry)
        (node_view node.now))) }
{
    let inputs = inputs_of(&node.op);
    check_sink(alloc, earlier, &node.name, inputs.first)?;
    check_sink(alloc, earlier, &node.name, inputs.second)
}

fn is_wrong(op: &Op, input: Wiring) -> bool
    ensures { result ≡ is_wrong_kind (op_view op.now) input }
{
    match op {
        Op::SelectKey { .. } | Op::WindowedCount { .. } => !gives_stream(input),
        Op::Count { by, .. } | Op::Sum { by, .. } => by.is_none() && !gives_stream(input),
        Op::Join { .. } | Op::FkJoin { .. } => gives_stream(input),
        _ => false,
    }
}

fn check_kind(
    alloc: Global,
    earlier: Earlier<'_>,
    node: &NodeDraft,
    input: Option<&Blob>,
) -> Result<(), Refusal>
    requires { IsEarlier earlier }
    ensures { Finds result (first_fitting (kinds_among (known_of earlier.entry) (node_view node.now)
        (option_to_list (option_copied input.entry)))) }
{
    if let Some(input) = input {
        if is_wrong(&node.op, wiring_of(earlier, input)) {
            return Err(Refusal::Fault(wrong_kind(alloc, node.name.as_str().as_bytes())?));
        }
    }
    Ok(())
}

fn check_kinds(alloc: Global, earlier: Earlier<'_>, node: &NodeDraft) -> Result<(), Refusal>
    requires { IsEarlier earlier }
    ensures { Finds result (first_fitting (kind_lines (known_of earlier.entry)
        (node_view node.now))) }
{
    let inputs = inputs_of(&node.op);
    check_kind(alloc, earlier, node, inputs.first)?;
    check_kind(alloc, earlier, node, inputs.second)
}

// The number of an earlier node.
fn number_of(earlier: Earlier<'_>, name: &Blob) -> u8
    requires { IsEarlier earlier }
    ensures { result ≡ node_number (known_of earlier.entry) name.now }
{
    find_input(
        earlier.topics,
        earlier.nodes,
        earlier.known,
        name.as_slice(),
    )
    .number
}

/// The text that is stated for the topic of an origin, among the topics by number.
pub fn stated_text(sorted: &[(Name, TopicDraft)], origin: Option<u16>) -> Option<&Name>
    ensures { option_copied result ≡ stated_for (befores_in sorted.now) origin }
{
    let (_, topic) = sorted.get(origin? as usize)?;
    topic.before.as_ref()
}

fn is_same_before(a: Option<&Name>, b: Option<&Name>) -> bool
    ensures { result ≡ same_before (option_copied a.entry) (option_copied b.entry) }
{
    match (a, b) {
        (None, None) => true,
        (Some(a), Some(b)) => equal_bytes(a.as_str().as_bytes(), b.as_str().as_bytes()),
        _ => false,
    }
}

// Whether the keys of two earlier nodes are spread in different ways.
fn is_apart(
    earlier: Earlier<'_>,
    parts: &[u8],
    origins: &[Option<u16>],
    left: u8,
    right: u8,
) -> bool
    requires { IsEarlier earlier }
    ensures { result ≡ are_apart earlier.entry.topics.now parts.now origins.now left right }
{
    let l = stated_text(earlier.sorted, origin_at(origins, left as usize));
    let r = stated_text(earlier.sorted, origin_at(origins, right as usize));
    let same = number_at(parts, left as usize) == number_at(parts, right as usize);
    !(same && is_same_before(l, r))
}

fn check_sides(
    earlier: Earlier<'_>,
    parts: &[u8],
    origins: &[Option<u16>],
    op: &Op,
) -> Result<(), Refusal>
    requires { IsEarlier earlier }
    ensures { Finds result (first_fitting (sides_among earlier.entry.topics.now parts.now
        origins.now (known_of earlier.entry) (op_view op.now))) }
{
    match op {
        Op::Join { left, right, .. } => {
            let l = number_of(earlier, left);
            let r = number_of(earlier, right);
            if is_apart(earlier, parts, origins, l, r) {
                return Err(Refusal::Fault(TopoFault::NotCopartitioned {
                    left: left.clone()?,
                    right: right.clone()?,
                }));
            }
            Ok(())
        }
        _ => Ok(()),
    }
}

// From 0 to the greatest time, which a float still tells from the next.
#[tactic(auto, unfolding(ks_plan::specs::Faults::is_time))]
fn is_time(span: i64) -> bool
    ensures exact { result ≡ within_times span }
    ensures most { result ≡ true → span ≤ℤ pos 9007199254740992 }
{
    0 <= span && span <= 9_007_199_254_740_992
}

fn is_advance(size: i64, advance: i64) -> bool
    requires { size ≤ℤ pos 9007199254740992 }
    ensures { result ≡ suits_size size advance }
{
    if advance < 1 || size < advance {
        return false;
    }
    size <= 1000 * advance
}

fn is_window(size: i64, advance: i64, grace: i64) -> bool
    ensures { result ≡ is_good_window size advance grace }
{
    is_time(size) && is_time(grace) && is_advance(size, advance)
}

fn check_window(alloc: Global, node: &NodeDraft) -> Result<(), Refusal>
    ensures { Finds result (first_fitting (window_lines node.now.name (op_view node.now.op))) }
{
    match &node.op {
        Op::WindowedCount {
            size,
            advance,
            grace,
            ..
        } => {
            if !is_window(*size, advance.unwrap_or(*size), grace.unwrap_or(86_400_000)) {
                let name = blob_of(alloc, node.name.as_str().as_bytes())?;
                return Err(Refusal::Fault(TopoFault::BadWindow { name }));
            }
            Ok(())
        }
        _ => Ok(()),
    }
}

fn check_internal(
    alloc: Global,
    topics: &[(Name, TopicDraft)],
    app: &Name,
    node: &Name,
    wiring: Wiring,
) -> Result<(), Refusal>
    ensures { Finds result (first_fitting (taken_lines (names_of_topics topics.now)
        (internal_names app.now node.now wiring))) }
{
    let mut internal = Vec::new(alloc);
    push_through(&mut internal, 0, wiring)?;
    push_changelogs(&mut internal, 0, wiring)?;
    for topic in &internal {
        let name = internal_name(alloc, app, node.as_str().as_bytes(), *topic)?;
        if is_topic(topics, name.as_slice()) {
            return Err(Refusal::Fault(TopoFault::DuplicateName { name }));
        }
    }
    Ok(())
}

/// The tests of one node in their order; else what the node is. The partition counts and the origins of the nodes before it are
/// given.
pub fn check_node(
    alloc: Global,
    app: &Name,
    earlier: Earlier<'_>,
    parts: &[u8],
    origins: &[Option<u16>],
    node: &NodeDraft,
) -> Result<Resolved, Refusal>
    requires { IsEarlier earlier }
    ensures found { Finds result (first_of (node_lines app.now earlier.entry.topics.now parts.now
        origins.now (nodes_view earlier.entry.nodes.now) (node_view node.now))) }
    ensures resolved { IfOk result (λ r. r ≡ resolved_op earlier.entry.topics.now
        (nodes_view earlier.entry.nodes.now) (op_view node.now.op)) }
{
    check_name(alloc, earlier.nodes, node)?;
    check_fields(alloc, &node.op)?;
    check_topic(alloc, earlier.topics, &node.op)?;
    check_inputs(alloc, earlier.nodes, &node.op)?;
    check_new_topic(alloc, earlier.nodes, &node.op)?;
    check_sinks(alloc, earlier, node)?;
    check_kinds(alloc, earlier, node)?;
    check_sides(earlier, parts, origins, &node.op)?;
    check_window(alloc, node)?;
    let resolved = resolve_op(earlier.topics, earlier.nodes, earlier.known, &node.op);
    check_internal(alloc, earlier.topics, app, &node.name, resolved.wiring)?;
    Ok(resolved)
}
