//! Projections of a topology line.
ghost use Rattle.std.specs.Prelude.{◌≡◌, [], map};
ghost use Rattle.serde_json.specs.View.{view, members_view};
ghost use Rattle.ks_expr.specs.Terms.{set_of as terms_of, term_of};
ghost use Rattle.ks_job_record.specs.Gives.{Gives};
ghost use Rattle.ks_job_topology.specs.Nodes.{entry_from, set_from, set_of};

use crate::read_limited;
use ks_expr::{Expr, Proj};
use ks_job_record::{LineError, bad_shape, read_member};
use ks_record::{Name, Seq};
use serde_json::Value;
use serde_json::value::Map;
use std::alloc::Global;

#[tactic(auto, unfolding(crate::specs::Nodes::entry_from))]
fn read_entry(
    alloc: Global,
    sides: bool,
    name: &str,
    value: &Value,
) -> Result<(Name, Expr), LineError>
    ensures { Gives (λ e. (e.0, term_of e.1)) result (entry_from sides name.now (view value.now)) }
{
    let Some(known) = Name::of_text(alloc, name)? else {
        return Err(LineError::Fault(bad_shape(alloc, name)?));
    };
    let expr = read_limited(alloc, name, sides, value)?;
    Ok((known, expr))
}

#[tactic(auto, using(crate::proofs::Nodes::set_push))]
fn read_entries(
    alloc: Global,
    sides: bool,
    object: &Map<String, Value>,
) -> Result<Vec<(Name, Expr)>, LineError>
    ensures { Gives (λ v. map (λ m. (m.0, term_of m.1)) v.items) result
        (set_from sides [] (members_view object.now.entries)) }
{
    let mut fields = Vec::new(alloc);
    for (name, value) in object {
        let entry = read_entry(alloc, sides, name.as_str(), value)?;
        fields.push(entry)?;
    }
    Ok(fields)
}

/// The projection of a node; `sides` where it is a join's.
#[tactic(auto, unfolding(crate::specs::Nodes::set_of), using(crate::proofs::Nodes::no_entries))]
pub fn read_set(alloc: Global, sides: bool, value: &Value) -> Result<Proj, LineError>
    ensures { Gives (λ s. terms_of s) result (set_of sides (view value.now)) }
{
    let inner = read_member(alloc, "set", value)?;
    match inner.as_object() {
        Some(map) => {
            let fields = read_entries(alloc, sides, map)?;
            if fields.is_empty() {
                Err(LineError::Fault(bad_shape(alloc, "set")?))
            } else {
                Ok(Proj {
                    fields: Seq::of(fields),
                })
            }
        }
        None => Err(LineError::Fault(bad_shape(alloc, "set")?)),
    }
}
