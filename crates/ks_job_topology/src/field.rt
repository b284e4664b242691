//! Members of nodes.
ghost use Rattle.std.specs.Prelude.{◌≡◌, true};
ghost use Rattle.serde_json.specs.View.{view};
ghost use Rattle.ks_job_record.specs.Gives.{Gives};
ghost use Rattle.ks_job_topology.specs.Nodes.{blob_from, name_from, by_from, integer_if, join_kind_of, join_kind_from};

use ks_expr::JoinKind;
use ks_job_record::{LineError, bad_shape, blob_of, read_integer, read_text};
use ks_record::{Blob, Name};
use serde_json::Value;
use std::alloc::Global;

/// A text of any length.
#[tactic(auto, unfolding(crate::specs::Nodes::blob_from))]
pub fn read_blob(alloc: Global, name: &str, value: &Value) -> Result<Blob, LineError>
    ensures { Gives (λ b. b) result (blob_from name.now (view value.now)) }
{
    let text = read_text(alloc, name, value)?;
    Ok(blob_of(alloc, text)?)
}

/// A field's name.
#[tactic(auto, unfolding(crate::specs::Nodes::name_from))]
pub fn read_name_of(alloc: Global, name: &str, value: &Value) -> Result<Name, LineError>
    ensures { Gives (λ n. n) result (name_from name.now (view value.now)) }
{
    let text = read_text(alloc, name, value)?;
    match Name::of_text(alloc, text)? {
        Some(field) => Ok(field),
        None => Err(LineError::Fault(bad_shape(alloc, name)?)),
    }
}

/// The field of `by`, which may be absent.
#[tactic(auto, unfolding(crate::specs::Nodes::by_from))]
pub fn read_by(alloc: Global, value: &Value) -> Result<Option<Name>, LineError>
    ensures { Gives (λ n. n) result (by_from (view value.now)) }
{
    let Some(inner) = value.get("by") else {
        return Ok(None);
    };
    let Some(text) = inner.as_str() else {
        return Err(LineError::Fault(bad_shape(alloc, "by")?));
    };
    match Name::of_text(alloc, text)? {
        Some(name) => Ok(Some(name)),
        None => Err(LineError::Fault(bad_shape(alloc, "by")?)),
    }
}

/// A number, which may be absent.
#[tactic(auto, unfolding(crate::specs::Nodes::integer_if))]
pub fn read_integer_if(alloc: Global, name: &str, value: &Value) -> Result<Option<i64>, LineError>
    ensures { Gives (λ n. n) result (integer_if name.now (view value.now)) }
{
    match value.get(name) {
        None => Ok(None),
        Some(inner) => {
            let number = read_integer(alloc, name, inner)?;
            Ok(Some(number))
        }
    }
}

fn find_side(text: &str) -> Option<JoinKind>
    ensures { result ≡ join_kind_of true text.now }
{
    if text == "inner" {
        Some(JoinKind::Inner)
    } else if text == "left" {
        Some(JoinKind::Left)
    } else {
        None
    }
}

fn find_join_kind(foreign: bool, text: &str) -> Option<JoinKind>
    ensures { result ≡ join_kind_of foreign text.now }
{
    if foreign {
        find_side(text)
    } else if text == "outer" {
        Some(JoinKind::Outer)
    } else {
        find_side(text)
    }
}

/// The kind of a join; `foreign` where it is a foreign-key join, which is no outer join.
#[tactic(auto, unfolding(crate::specs::Nodes::join_kind_from))]
pub fn read_join_kind(alloc: Global, foreign: bool, value: &Value) -> Result<JoinKind, LineError>
    ensures { Gives (λ k. k) result (join_kind_from foreign (view value.now)) }
{
    let text = read_text(alloc, "kind", value)?;
    match find_join_kind(foreign, text) {
        Some(kind) => Ok(kind),
        None => Err(LineError::Fault(bad_shape(alloc, "kind")?)),
    }
}
