//! How the keys of an input topic are spread, as JSON says it.
ghost use Rattle.std.specs.Prelude.{◌≡◌, IfOk, option_map};
ghost use Rattle.serde_json.specs.View.{view};
ghost use Rattle.ks_job_record.specs.Gives.{Gives};
ghost use Rattle.ks_job_topology.specs.Stated.{parts_from, only_two_of, stated_in, stated_from, plain_from, spread_from};

use ks_job_record::{LineError, bad_shape, read_integer};
use ks_plan::TopicDraft;
use ks_record::Name;
use serde_json::Value;
use std::alloc::{AllocError, Global};

#[tactic(auto, unfolding(crate::specs::Stated::parts_from))]
fn read_parts(alloc: Global, name: &str, value: &Value) -> Result<i64, LineError>
    ensures { Gives (λ n. n) result (parts_from name.now (view value.now)) }
{
    let parts = read_integer(alloc, name, value)?;
    if parts < 1 {
        Err(LineError::Fault(bad_shape(alloc, name)?))
    } else {
        Ok(parts)
    }
}

// Of an object with exactly two members these, the first by bytes first.
#[tactic(auto, using(crate::proofs::Trees::two_members_none))]
fn only_two(value: &Value) -> Option<((&str, &Value), (&str, &Value))>
    ensures { option_map (λ p. ((p.0.0.now, view p.0.1.now), (p.1.0.now, view p.1.1.now))) result
        ≡ only_two_of (view value.now) }
{
    let map = value.as_object()?;
    if map.len() != 2 {
        return None;
    }
    let mut members = map.iter();
    let (first, one) = members.next()?;
    let (second, other) = members.next()?;
    Some(((first.as_str(), one), (second.as_str(), other)))
}

// The text of 1 to 64 bytes, and what the number of partitions is to be.
fn read_stated<'a>(alloc: Global, value: &'a Value) -> Result<Option<(Name, &'a Value)>, AllocError>
    ensures { IfOk result (λ o. option_map (λ p. (p.0, view p.1.now)) o
        ≡ stated_in (only_two_of (view value.now))) }
{
    let Some(((first, text), (second, parts))) = only_two(value) else {
        return Ok(None);
    };
    if first != "key_before" || second != "parts" {
        return Ok(None);
    }
    let Some(text) = text.as_str() else {
        return Ok(None);
    };
    match Name::of_text(alloc, text)? {
        Some(before) => Ok(Some((before, parts))),
        None => Ok(None),
    }
}

#[tactic(auto, unfolding(crate::specs::Stated::stated_from))]
fn read_stated_topic(alloc: Global, name: &str, value: &Value) -> Result<TopicDraft, LineError>
    ensures { Gives (λ t. t) result (stated_from name.now (view value.now)) }
{
    let Some((before, inner)) = read_stated(alloc, value)? else {
        return Err(LineError::Fault(bad_shape(alloc, name)?));
    };
    let parts = read_parts(alloc, name, inner)?;
    Ok(TopicDraft {
        parts,
        before: Some(before),
    })
}

#[tactic(auto, unfolding(crate::specs::Stated::plain_from))]
fn read_plain_topic(alloc: Global, name: &str, value: &Value) -> Result<TopicDraft, LineError>
    ensures { Gives (λ t. t) result (plain_from name.now (view value.now)) }
{
    let parts = read_parts(alloc, name, value)?;
    Ok(TopicDraft {
        parts,
        before: None,
    })
}

/// A number of partitions, or an object with it and the text before which the front parts of keys end.
#[tactic(auto, unfolding(crate::specs::Stated::spread_from))]
pub fn read_spread(alloc: Global, name: &str, value: &Value) -> Result<TopicDraft, LineError>
    ensures { Gives (λ t. t) result (spread_from name.now (view value.now)) }
{
    match value.as_object() {
        Some(_) => read_stated_topic(alloc, name, value),
        None => read_plain_topic(alloc, name, value),
    }
}
