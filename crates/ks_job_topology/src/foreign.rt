//! What gives the foreign key of a left row, as JSON says it.
ghost use Rattle.std.specs.Prelude.{◌≡◌, IfOk};
ghost use Rattle.serde_json.specs.View.{view};
ghost use Rattle.ks_job_record.specs.Gives.{Gives};
ghost use Rattle.ks_job_topology.specs.Foreign.{part_of_key, by_member, fk_in, fk_from};
ghost use Rattle.ks_job_topology.specs.Exprs.{only_member_of};

use crate::expr::only_member;
use ks_expr::Fk;
use ks_job_record::{LineError, bad_shape, read_member};
use ks_record::Name;
use serde_json::Value;
use std::alloc::{AllocError, Global};

// A member and its text: the left key as a whole, or its front part.
#[tactic(auto, unfolding(crate::specs::Foreign::part_of_key))]
fn read_part(alloc: Global, member: &str, text: &str) -> Result<Option<Fk>, AllocError>
    ensures { IfOk result (λ o. o ≡ part_of_key member.now text.now) }
{
    if member == "key" {
        if text == "whole" {
            return Ok(Some(Fk::Whole));
        }
        return Ok(None);
    }
    if member != "key_before" {
        return Ok(None);
    }
    match Name::of_text(alloc, text)? {
        Some(before) => Ok(Some(Fk::Before(before))),
        None => Ok(None),
    }
}

fn read_only_member(alloc: Global, value: &Value) -> Result<Option<Fk>, AllocError>
    ensures { IfOk result (λ o. o ≡ by_member (only_member_of (view value.now))) }
{
    let Some((member, inner)) = only_member(value) else {
        return Ok(None);
    };
    let Some(text) = inner.as_str() else {
        return Ok(None);
    };
    read_part(alloc, member, text)
}

// A field's name, or an object with exactly one member.
#[tactic(auto, unfolding(crate::specs::Foreign::fk_in))]
fn read_form(alloc: Global, value: &Value) -> Result<Option<Fk>, AllocError>
    ensures { IfOk result (λ o. o ≡ fk_in (view value.now)) }
{
    let Some(text) = value.as_str() else {
        return read_only_member(alloc, value);
    };
    match Name::of_text(alloc, text)? {
        Some(field) => Ok(Some(Fk::Field(field))),
        None => Ok(None),
    }
}

/// The foreign key's form, in the member `fk`.
#[tactic(auto, unfolding(crate::specs::Foreign::fk_from))]
pub fn read_fk(alloc: Global, value: &Value) -> Result<Fk, LineError>
    ensures { Gives (λ k. k) result (fk_from (view value.now)) }
{
    let inner = read_member(alloc, "fk", value)?;
    match read_form(alloc, inner)? {
        Some(fk) => Ok(fk),
        None => Err(LineError::Fault(bad_shape(alloc, "fk")?)),
    }
}
