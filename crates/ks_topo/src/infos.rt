//! What is shown of topics and nodes.
ghost use Rattle.std.specs.Prelude.{◌≡◌, ◌≤◌, ◌+◌, length, map, fold, get_or, [], ◌∷◌, ◌++◌, OnOk, IfOk, Some, None, false, pos, ◌≤ℤ◌, option_copied};
ghost use Rattle.ks_plan.specs.declared.node.Wiring.TheVariants.{StreamSource};
ghost use Rattle.ks_plan.specs.Drafts.{draft_view, nodes_view};
ghost use Rattle.ks_plan.specs.Plan.{with_topic, natural as to_natural, sorted_topics};
ghost use Rattle.ks_plan.specs.Faults.{any_past};
ghost use Rattle.ks_plan.specs.Infos.{name_in, topic_name as name_of_topic, role_of as role, node_place, built_view, places_from};
ghost use Rattle.ks_topo.specs.Built.{topic_place, naturals, wired_topic_info, wired_place, wired_store};

use crate::check::stated_text;
use ks_plan::{Draft, Node, NodeDraft, Role, Topic, TopicDraft, TopicInfo, Wiring};
use ks_record::{Blob, Name};
use ks_topo_layout::{
    Shape, gives_stream, internal_name, is_before, number_at, number_of, origin_of_topic,
    parts_of_topic, sub_of,
};
use std::alloc::{AllocError, Global};

// The place of a name among sorted topics.
fn find_place(sorted: &[(Name, TopicDraft)], name: &Name) -> usize
    ensures place { result ≡ topic_place name.now sorted.now }
    ensures within { result ≤ length sorted.now }
{
    let mut place = 0;
    for (own, _) in sorted {
        if is_before(name.as_str().as_bytes(), own.as_str().as_bytes()) {
            return place;
        }
        place += 1;
    }
    place
}

// One more topic in its place.
#[tactic(auto, using(crate::proofs::Sorting::placed_at))]
fn insert_topic(
    sorted: &mut Vec<(Name, TopicDraft)>,
    name: Name,
    topic: TopicDraft,
) -> Result<(), AllocError>
    ensures items { OnOk result (sorted.new.items ≡ with_topic sorted.old.items (name, topic)) }
    ensures len { OnOk result (length sorted.new.items ≡ length sorted.old.items + 1) }
{
    let place = find_place(sorted, &name);
    sorted.insert(place, (name, topic))?;
    Ok(())
}

fn copy_name(name: Option<&Name>) -> Result<Option<Name>, AllocError>
    ensures { IfOk result (λ n. n ≡ option_copied name.entry) }
{
    match name {
        Some(name) => Ok(Some(name.clone()?)),
        None => Ok(None),
    }
}

fn copy_topic(topic: &TopicDraft) -> Result<TopicDraft, AllocError>
    ensures { IfOk result (λ t. t ≡ topic.now) }
{
    Ok(TopicDraft {
        parts: topic.parts,
        before: copy_name(topic.before.as_ref())?,
    })
}

/// The topics in order of their names.
pub fn sort_topics(
    alloc: Global,
    topics: &[(Name, TopicDraft)],
) -> Result<Vec<(Name, TopicDraft)>, AllocError>
    ensures items { IfOk result (λ v. v.items ≡ fold with_topic [] topics.now) }
    ensures len { IfOk result (λ v. length v.items ≡ length topics.now) }
{
    let mut sorted = Vec::new(alloc);
    for (name, topic) in topics {
        insert_topic(&mut sorted, name.clone()?, copy_topic(topic)?)?;
    }
    Ok(sorted)
}

fn to_count(number: i64) -> u8
    requires { number ≤ℤ pos 64 }
    ensures { result ≡ to_natural number }
{
    if number < 0 { 0 } else { number as u8 }
}

/// The partition counts of topics.
pub fn counts_of(alloc: Global, topics: &[(Name, TopicDraft)]) -> Result<Vec<u8>, AllocError>
    requires { any_past topics.now ≡ false }
    ensures items { IfOk result (λ v. v.items ≡ naturals topics.now) }
    ensures len { IfOk result (λ v. length v.items ≡ length topics.now) }
{
    let mut counts = Vec::new(alloc);
    for (_, topic) in topics {
        counts.push(to_count(topic.parts))?;
    }
    Ok(counts)
}

fn topic_name(
    alloc: Global,
    draft: &Draft,
    sorted: &[(Name, TopicDraft)],
    topic: Topic,
) -> Result<Blob, AllocError>
    requires { sorted.now ≡ sorted_topics (draft_view draft.now) }
    ensures { IfOk result (λ b. b ≡ name_of_topic (draft_view draft.now) topic) }
{
    let nodes = draft.nodes.as_slice();
    match topic {
        Topic::Input(number) => match sorted.get(number as usize) {
            Some((name, _)) => Blob::from_slice(alloc, name.as_str().as_bytes()),
            None => Blob::of(Vec::new(alloc)),
        },
        Topic::Repartition(node)
        | Topic::Subscriptions(node)
        | Topic::Responses(node)
        | Topic::Changelog(node)
        | Topic::HashChangelog(node) => internal_name(
            alloc,
            &draft.app,
            node_name(nodes, node),
            topic,
        ),
    }
}

#[tactic(auto, using(crate::proofs::Showing::name_there))]
fn node_name(nodes: &[NodeDraft], node: u8) -> &[u8]
    ensures { result.now ≡ name_in (nodes_view nodes.now) node }
{
    match nodes.get(node as usize) {
        Some(draft) => draft.name.as_str().as_bytes(),
        None => &[],
    }
}

fn role_of(topic: Topic) -> Role
    ensures { result ≡ role topic }
{
    match topic {
        Topic::Input(_) => Role::Input,
        Topic::Repartition(_) => Role::Repartition,
        Topic::Subscriptions(_) => Role::Subscription,
        Topic::Responses(_) => Role::Response,
        Topic::Changelog(_) | Topic::HashChangelog(_) => Role::Changelog,
    }
}

fn topic_info(
    alloc: Global,
    draft: &Draft,
    sorted: &[(Name, TopicDraft)],
    shape: &Shape,
    topic: Topic,
) -> Result<TopicInfo, AllocError>
    requires { sorted.now ≡ sorted_topics (draft_view draft.now) }
    ensures { IfOk result (λ i. i ≡ wired_topic_info (draft_view draft.now) shape.now topic) }
{
    let before = stated_text(sorted, origin_of_topic(shape, topic));
    Ok(TopicInfo {
        name: topic_name(alloc, draft, sorted, topic)?,
        parts: parts_of_topic(shape, topic),
        before: copy_name(before)?,
        role: role_of(topic),
    })
}

/// The topics as they are shown.
pub fn topic_infos(
    alloc: Global,
    draft: &Draft,
    sorted: &[(Name, TopicDraft)],
    shape: &Shape,
    topics: &[Topic],
) -> Result<Vec<TopicInfo>, AllocError>
    requires { sorted.now ≡ sorted_topics (draft_view draft.now) }
    ensures { IfOk result (λ v. v.items ≡ map (wired_topic_info (draft_view draft.now) shape.now)
        topics.now) }
{
    let mut infos = Vec::new(alloc);
    for topic in topics {
        infos.push(topic_info(alloc, draft, sorted, shape, *topic)?)?;
    }
    Ok(infos)
}

fn wiring_at(wirings: &[Wiring], node: usize) -> Wiring
    ensures { result ≡ get_or wirings.now node (StreamSource 0) }
{
    match wirings.get(node) {
        Some(wiring) => *wiring,
        None => Wiring::StreamSource { topic: 0 },
    }
}

fn store_of(shape: &Shape, all: &[Topic], node: u8) -> Option<u16>
    requires { length all.now ≤ 400 }
    ensures { result ≡ wired_store shape.now all.now node }
{
    if gives_stream(wiring_at(&shape.wirings, node as usize)) {
        None
    } else {
        Some(number_of(all, Topic::Changelog(node)))
    }
}

#[tactic(auto, using(crate::proofs::Showing::places_push, crate::proofs::Showing::views_push))]
fn push_node(nodes: &mut Vec<Node>, node: Node) -> Result<(), AllocError>
    ensures places { OnOk result (map node_place nodes.new.items ≡ map node_place nodes.old.items
        ++ node_place node ∷ []) }
    ensures views { OnOk result (map built_view nodes.new.items ≡ map built_view nodes.old.items
        ++ built_view node ∷ []) }
{
    nodes.push(node)?;
    Ok(())
}

/// The nodes as they are shown.
pub fn built_nodes(
    alloc: Global,
    shape: &Shape,
    all: &[Topic],
    drafts: Vec<NodeDraft>,
) -> Result<Vec<Node>, AllocError>
    requires topics { length all.now ≤ 400 }
    requires nodes { length drafts.items ≤ 64 }
    ensures places { IfOk result (λ v. map node_place v.items
        ≡ places_from (wired_place shape.now all.now) 0 drafts.items) }
    ensures views { IfOk result (λ v. map built_view v.items ≡ nodes_view drafts.items) }
{
    let mut nodes = Vec::new(alloc);
    let mut number: u8 = 0;
    for draft in drafts {
        let node = Node {
            name: draft.name,
            op: draft.op,
            wiring: wiring_at(&shape.wirings, number as usize),
            sub: sub_of(shape, number as usize),
            parts: number_at(&shape.parts, number as usize),
            store: store_of(shape, all, number),
        };
        push_node(&mut nodes, node)?;
        number += 1;
    }
    Ok(nodes)
}
