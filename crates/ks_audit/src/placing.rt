//! Whether a record that was produced is an input record at its place.
ghost use Rattle.std.specs.Prelude.{◌≡◌, ◌<◌, ◌↔◌, ◌&&◌, true, ℕ, List, IfOk, length, option_copied};
ghost use Rattle.ks_law_kinds.specs.OfKind.{is_in_range, is_given, may_have, spells};
ghost use Rattle.ks_record.specs.Bytes.{IsBytes};
ghost use Rattle.ks_record.specs.Texts.{key_from};
ghost use Rattle.ks_row.specs.Reading.{row_from};
ghost use Rattle.ks_plan.specs.declared.node.Topic.TheVariants.{Input as InputTopic};
ghost use Rattle.ks_topo.specs.Topologies.{plan_in};
ghost use Rattle.ks_topo.specs.Places.{HasPlaces};
ghost use Rattle.ks_def_tasks.specs.Tasks.{part_of_key};
ghost use Rattle.ks_def_tasks.specs.Rules.{rules_of};
ghost use Rattle.ks_audit.specs.Audited.{IsInputAt};

use ks_record::{Key, PartId, Rec};
use ks_row::decode;
use ks_topo::Topology;
use std::alloc::{AllocError, Global};

fn slice_is_bytes(bytes: &[u8])
    ensures { IsBytes bytes.now }
{}

#[tactic(auto, using(crate::proofs::Topics::spelled_by))]
fn is_key(alloc: Global, bytes: &[u8]) -> Result<bool, AllocError>
    ensures { IfOk result (λ b. b ≡ spells key_from bytes.now) }
{
    slice_is_bytes(bytes);
    let key = Key::of(alloc, bytes)?;
    Ok(key.is_some())
}

#[tactic(auto, using(crate::proofs::Topics::spelled_by))]
fn is_row(alloc: Global, bytes: &[u8]) -> Result<bool, AllocError>
    ensures { IfOk result (λ b. b ≡ spells row_from bytes.now) }
{
    slice_is_bytes(bytes);
    let row = decode(alloc, bytes)?;
    Ok(row.is_some())
}

fn has_key(alloc: Global, key: Option<&[u8]>) -> Result<bool, AllocError>
    ensures { IfOk result (λ b. b ≡ may_have (spells key_from) (option_copied key.entry)) }
{
    match key {
        Some(bytes) => is_key(alloc, bytes),
        None => Ok(true),
    }
}

fn has_row(alloc: Global, value: Option<&[u8]>) -> Result<bool, AllocError>
    ensures { IfOk result (λ b. b ≡ may_have (spells row_from) (option_copied value.entry)) }
{
    match value {
        Some(bytes) => is_row(alloc, bytes),
        None => Ok(true),
    }
}

#[tactic(auto, unfolding(ks_law_kinds::specs::OfKind::is_in_range))]
fn is_in_range(time: u64) -> bool
    ensures { result ≡ is_in_range time }
{
    time <= 9007199254740992
}

fn both(a: bool, b: bool) -> bool
    ensures { result ≡ (a && b) }
{
    a && b
}

// Whether a record has no key or one, no value or the bytes of a row, and a time in range.
fn is_given(alloc: Global, part: PartId, rec: &Rec) -> Result<bool, AllocError>
    ensures { IfOk result (λ b. b ≡ is_given part rec.now) }
{
    let has_key = has_key(alloc, rec.key())?;
    let has_row = has_row(alloc, rec.value())?;
    Ok(both(both(has_key, has_row), is_in_range(rec.ts())))
}

// The place of a key in a topic; without a key the first partition.
fn place_of(topology: &Topology, topic: u16, key: Option<&[u8]>) -> u8
    requires places { HasPlaces (plan_in topology.now) topic }
    requires source { topic < length (plan_in topology.now).counts }
    ensures { (hash : List ℕ → ℕ)
        → result ≡ part_of_key (rules_of hash) (plan_in topology.now) (InputTopic topic)
        (option_copied key.entry) }
{
    match key {
        Some(key) => topology.place(topic, key),
        None => 0,
    }
}

fn is_same(a: u8, b: u8) -> bool
    ensures { (result ≡ true) ↔ (a ≡ b) }
{
    a == b
}

/// Whether a record is one that a job may have, in the partition of its key. Want of memory is the one error.
pub(crate) fn is_input(
    alloc: Global,
    topology: &Topology,
    part: PartId,
    rec: &Rec,
) -> Result<bool, AllocError>
    requires places { HasPlaces (plan_in topology.now) part.topic }
    requires source { part.topic < length (plan_in topology.now).counts }
    ensures { IfOk result (λ b. (hash : List ℕ → ℕ)
        → (b ≡ true) ↔ IsInputAt (rules_of hash) (plan_in topology.now) part rec.now) }
{
    let is_given = is_given(alloc, part, rec)?;
    let place = place_of(topology, part.topic, rec.key());
    let is_here = is_same(part.part, place);
    Ok(both(is_given, is_here))
}
