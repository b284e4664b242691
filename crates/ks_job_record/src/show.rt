//! How a fault is printed.
ghost use Rattle.std.specs.Prelude.{◌≡◌, ◌++◌, IfOk, string_bytes};
ghost use Rattle.ks_job_record.specs.Texts.{name_text as text_of_name, limit_text as text_of_limit, fault_text as text_of_fault};

use crate::fault::JobKind;
use serde_json::Value;
use std::alloc::{AllocError, Global};
use std::str;

/// A name as a JSON text, in quotes; empty where the bytes are no UTF-8.
#[tactic(auto, unfolding(crate::specs::Texts::name_text))]
pub fn name_text(alloc: Global, name: &[u8]) -> Result<String, AllocError>
    ensures { IfOk result (λ s. string_bytes s ≡ text_of_name name.now) }
{
    match str::from_utf8(name) {
        Ok(text) => Value::try_from_str(alloc, text)?.to_string(alloc),
        Err(_) => Ok(String::new(alloc)),
    }
}

fn named_text(alloc: Global, fault: &str, name: &[u8]) -> Result<Vec<u8>, AllocError>
    ensures { IfOk result (λ v. v.items ≡ fault.now ++ text_of_name name.now) }
{
    let mut text = Vec::from_slice(alloc, fault.as_bytes())?;
    let name = name_text(alloc, name)?;
    text.extend_from_slice(name.as_bytes())?;
    Ok(text)
}

#[tactic(auto, unfolding(crate::specs::Texts::limit_text))]
fn limit_text(alloc: Global, what: &[u8], limit: u64) -> Result<Vec<u8>, AllocError>
    ensures { IfOk result (λ v. v.items ≡ text_of_limit what.now limit) }
{
    let mut text = Vec::from_slice(alloc, b"14 TooMany ")?;
    text.extend_from_slice(what)?;
    text.extend_from_slice(b" ")?;
    let limit = limit.to_string(alloc)?;
    text.extend_from_slice(limit.as_bytes())?;
    Ok(text)
}

/// The text of a fault, with its number and what it names.
pub fn fault_text(alloc: Global, kind: &JobKind) -> Result<Vec<u8>, AllocError>
    ensures { IfOk result (λ v. v.items ≡ text_of_fault kind.now) }
{
    match kind {
        JobKind::TooMany { what, limit } => limit_text(alloc, what.as_slice(), *limit),
        JobKind::NotJson => Vec::from_slice(alloc, b"20 NotJson"),
        JobKind::BadShape { member } => named_text(alloc, "21 BadShape ", member.as_slice()),
        JobKind::BadNumber { member } => named_text(alloc, "22 BadNumber ", member.as_slice()),
        JobKind::UnknownTopic { topic } => named_text(alloc, "23 UnknownTopic ", topic.as_slice()),
        JobKind::LineTooLong => Vec::from_slice(alloc, b"24 LineTooLong"),
        JobKind::NoTopology => Vec::from_slice(alloc, b"25 NoTopology"),
    }
}
