//! Subtopologies and partition counts of nodes.
ghost use Rattle.std.specs.Prelude.{◌≡◌, ◌≤◌, ◌<◌, ◌+◌, suc, length, fold, [], IfOk, OnOk, option_copied};
ghost use Rattle.ks_plan.specs.Layout.{at, origin_at as the_origin, wired_origin, with_origin, wired_parts, wired_label, relabel, firsts};
ghost use Rattle.ks_topo_layout.specs.Wired.{wired_labels, wired_counts, wired_origins, sub_in};

use crate::shape::Shape;
use ks_plan::Wiring;
use std::alloc::{AllocError, Global};

/// A number of a list; 0 past its end.
pub fn number_at(numbers: &[u8], i: usize) -> u8
    ensures { result ≡ at numbers.now i }
{
    match numbers.get(i) {
        Some(number) => *number,
        None => 0,
    }
}

/// A node's partition count, behind those of the nodes before it: that of its topic, of its input, or of its left side.
/// An error only where memory runs out.
pub fn push_parts(counts: &[u8], parts: &mut Vec<u8>, wiring: Wiring) -> Result<(), AllocError>
    ensures { OnOk result (parts.new.items ≡ wired_parts counts.now parts.old.items wiring) }
{
    let count = match wiring {
        Wiring::StreamSource { topic } | Wiring::TableSource { topic } => number_at(
            counts,
            topic as usize,
        ),
        Wiring::StreamFilter { from } | Wiring::TableFilter { from } => number_at(
            parts,
            from as usize,
        ),
        Wiring::StreamMap { from } | Wiring::TableMap { from } => number_at(parts, from as usize),
        Wiring::KeySelected { from } | Wiring::TableAggregate { from } => number_at(
            parts,
            from as usize,
        ),
        Wiring::StreamAggregate { from, .. } | Wiring::Windowed { from, .. } => number_at(
            parts,
            from as usize,
        ),
        Wiring::KeyJoin { left, .. } | Wiring::ForeignKeyJoin { left, .. } => number_at(
            parts,
            left as usize,
        ),
    };
    parts.push(count)?;
    Ok(())
}

fn parts_of(alloc: Global, counts: &[u8], wirings: &[Wiring]) -> Result<Vec<u8>, AllocError>
    ensures { IfOk result (λ v. v.items ≡ wired_counts counts.now wirings.now) }
{
    let mut parts = Vec::new(alloc);
    for wiring in wirings {
        push_parts(counts, &mut parts, *wiring)?;
    }
    Ok(parts)
}

/// An origin of a list; none past its end.
pub fn origin_at(origins: &[Option<u16>], i: usize) -> Option<u16>
    ensures { result ≡ the_origin origins.now i }
{
    match origins.get(i) {
        Some(origin) => *origin,
        None => None,
    }
}

// The input topic as whose keys a node's are spread, behind those of the nodes before it.
fn origin_of(origins: &[Option<u16>], wiring: Wiring) -> Option<u16>
    ensures { result ≡ wired_origin origins.now wiring }
{
    match wiring {
        Wiring::StreamSource { topic } | Wiring::TableSource { topic } => Some(topic),
        Wiring::StreamFilter { from } | Wiring::TableFilter { from } => origin_at(
            origins,
            from as usize,
        ),
        Wiring::StreamMap { from } | Wiring::TableMap { from } => origin_at(origins, from as usize),
        Wiring::KeySelected { from } => origin_at(origins, from as usize),
        Wiring::StreamAggregate { from, through } | Wiring::Windowed { from, through } => {
            if through {
                None
            } else {
                origin_at(origins, from as usize)
            }
        }
        Wiring::TableAggregate { .. } => None,
        Wiring::KeyJoin { left, .. } | Wiring::ForeignKeyJoin { left, .. } => origin_at(
            origins,
            left as usize,
        ),
    }
}

/// A node's origin, behind those of the nodes before it. An error only where memory runs out.
pub fn push_origin(origins: &mut Vec<Option<u16>>, wiring: Wiring) -> Result<(), AllocError>
    ensures { OnOk result (origins.new.items ≡ with_origin origins.old.items wiring) }
{
    let origin = origin_of(origins, wiring);
    origins.push(origin)?;
    Ok(())
}

fn origins_of(alloc: Global, wirings: &[Wiring]) -> Result<Vec<Option<u16>>, AllocError>
    ensures { IfOk result (λ v. v.items ≡ wired_origins wirings.now) }
{
    let mut origins = Vec::new(alloc);
    for wiring in wirings {
        push_origin(&mut origins, *wiring)?;
    }
    Ok(origins)
}

// The labels with one of them replaced by another.
fn with_labels(alloc: Global, labels: &[u8], new: u8, old: u8) -> Result<Vec<u8>, AllocError>
    ensures { IfOk result (λ v. v.items ≡ relabel new old labels.now) }
{
    let mut changed = Vec::new(alloc);
    for label in labels {
        changed.push(if *label == old { new } else { *label })?;
    }
    Ok(changed)
}

// The labels with that of one more node, which may join two subtopologies.
fn with_label(alloc: Global, labels: Vec<u8>, wiring: Wiring) -> Result<Vec<u8>, AllocError>
    requires { length labels.items < 256 }
    ensures label { IfOk result (λ v. v.items ≡ wired_label labels.items wiring) }
    ensures len { IfOk result (λ v. length v.items ≡ length labels.items + 1) }
{
    let mut labels = labels;
    let own = labels.len() as u8;
    let label = match wiring {
        Wiring::StreamSource { .. } | Wiring::TableSource { .. } | Wiring::TableAggregate { .. } =>
            own,
        Wiring::StreamFilter { from } | Wiring::TableFilter { from } => number_at(
            &labels,
            from as usize,
        ),
        Wiring::StreamMap { from } | Wiring::TableMap { from } => number_at(&labels, from as usize),
        Wiring::KeySelected { from } => number_at(&labels, from as usize),
        Wiring::StreamAggregate { from, through } | Wiring::Windowed { from, through } => {
            if through {
                own
            } else {
                number_at(&labels, from as usize)
            }
        }
        Wiring::ForeignKeyJoin { left, .. } => number_at(&labels, left as usize),
        Wiring::KeyJoin { left, right } => {
            let left = number_at(&labels, left as usize);
            let right = number_at(&labels, right as usize);
            labels = with_labels(alloc, &labels, left.min(right), left.max(right))?;
            left.min(right)
        }
    };
    labels.push(label)?;
    Ok(labels)
}

fn labels_of(alloc: Global, wirings: &[Wiring]) -> Result<Vec<u8>, AllocError>
    requires { length wirings.now ≤ 64 }
    ensures { IfOk result (λ v. v.items ≡ wired_labels wirings.now) }
{
    let mut labels = Vec::new(alloc);
    for wiring in wirings {
        labels = with_label(alloc, labels, *wiring)?;
    }
    Ok(labels)
}

/// Where the nodes lie, and how many partitions each has, of at most 64 nodes. An error only where memory runs out.
pub fn shape_of(alloc: Global, counts: Vec<u8>, wirings: Vec<Wiring>) -> Result<Shape, AllocError>
    requires { length wirings.items ≤ 64 }
    ensures counts { IfOk result (λ s. s.counts.items ≡ counts.items) }
    ensures wirings { IfOk result (λ s. s.wirings.items ≡ wirings.items) }
    ensures labels { IfOk result (λ s. s.labels.items ≡ wired_labels wirings.items) }
    ensures parts { IfOk result (λ s. s.parts.items ≡ wired_counts counts.items wirings.items) }
    ensures origins { IfOk result (λ s. s.origins.items ≡ wired_origins wirings.items) }
{
    let labels = labels_of(alloc, &wirings)?;
    let parts = parts_of(alloc, &counts, &wirings)?;
    let origins = origins_of(alloc, &wirings)?;
    Ok(Shape {
        counts,
        wirings,
        labels,
        parts,
        origins,
    })
}

/// How many of the first nodes are the first of their subtopology.
pub fn count_firsts(labels: &[u8], nodes: u8) -> u8
    ensures exact { result ≡ firsts labels.now nodes }
    ensures within { result ≤ nodes }
{
    let mut count = 0;
    for node in 0..nodes {
        if number_at(labels, node as usize) == node {
            count += 1;
        }
    }
    count
}

/// The subtopology in which a node lies, by the node's number; 0 where there is no such node.
pub fn sub_of(shape: &Shape, node: usize) -> u8
    ensures { result ≡ sub_in shape.now.labels.items node }
{
    count_firsts(&shape.labels, number_at(&shape.labels, node))
}
