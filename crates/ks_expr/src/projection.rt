//! The rows that projections give.
ghost use Rattle.std.specs.Prelude.{◌≡◌, ◌≤◌, ◌<◌, length, map, slice_get, IfOk, IfSome, OnOk, IfNone, option_copied, option_map, Some, None};
ghost use Rattle.std.specs.List.{All};
ghost use Rattle.ks_row.specs.Fields.{field_seen, member_seen};
ghost use Rattle.ks_row.specs.Spelling.{FitsField, FitsMember};
ghost use Rattle.ks_expr.specs.Terms.{set_of};
ghost use Rattle.ks_expr.specs.Eval.{put_field as with_put, with_field, fields_onto, project as projected};
ghost use Rattle.ks_expr.specs.Values.{place_for, is_named};

use crate::evaluation::eval;
use crate::terms::Proj;
use ks_record::Name;
use ks_row::{FieldRef, Row, is_below};
use std::alloc::{AllocError, Global};

// A field of a name, both where they stand.
type Placed<'a> = (&'a [u8], FieldRef<'a>);

// How many of the first fields have a name below this one.
fn find_place(fields: &[Placed<'_>], name: &[u8]) -> usize
    ensures place { result ≡ place_for name.now (map member_seen fields.now) }
    ensures within { result ≤ length fields.now }
{
    let mut place = 0;
    for own in fields {
        if is_below(own.0, name) {
            place += 1;
        } else {
            return place;
        }
    }
    place
}

// Whether the field of this place has this name.
#[tactic(auto, using(crate::proofs::Refs::named_there))]
fn is_at(fields: &[Placed<'_>], place: usize, name: &[u8]) -> bool
    ensures { result ≡ is_named name.now (slice_get (map member_seen fields.now) place) }
{
    match fields.get(place) {
        Some(field) => field.0 == name,
        None => false,
    }
}

// The field in its place by name, or in that of a field of its name.
#[tactic(auto, using(crate::proofs::Refs::put_set_there, crate::proofs::Refs::put_insert_there))]
fn put_field<'a>(
    fields: &mut Vec<Placed<'a>>,
    name: &'a Name,
    field: FieldRef<'a>,
) -> Result<(), AllocError>
    ensures put { OnOk result (map member_seen fields.new.items
        ≡ with_put name.now (field_seen field.entry) (map member_seen fields.old.items)) }
    ensures fits { OnOk result (FitsField (field_seen field.entry)
        → All FitsMember (map member_seen fields.old.items)
        → All FitsMember (map member_seen fields.new.items)) }
{
    let name = name.as_str().as_bytes();
    let place = find_place(fields, name);
    if is_at(fields, place, name) {
        fields[place] = (name, field);
    } else {
        fields.insert(place, (name, field))?;
    }
    Ok(())
}

// The same where there is a field.
fn put_value<'a>(
    fields: &mut Vec<Placed<'a>>,
    name: &'a Name,
    value: Option<FieldRef<'a>>,
) -> Result<(), AllocError>
    ensures put { OnOk result (map member_seen fields.new.items
        ≡ with_field name.now (option_map field_seen value.entry)
        (map member_seen fields.old.items)) }
    ensures fits { OnOk result (IfSome (option_map field_seen value.entry) FitsField
        → All FitsMember (map member_seen fields.old.items)
        → All FitsMember (map member_seen fields.new.items)) }
{
    match value {
        Some(field) => put_field(fields, name, field),
        None => Ok(()),
    }
}

/// The row of the fields whose expression has a value, in order of their names; of a name that stands twice the last counts.
/// None where no expression has a value, and where more than 64 have one.
pub fn project(
    alloc: Global,
    proj: &Proj,
    left: Option<&Row>,
    right: Option<&Row>,
) -> Result<Option<Row>, AllocError>
    ensures { IfOk result (λ r. r ≡ projected (set_of proj.now) (option_copied left.entry)
        (option_copied right.entry)) }
{
    let mut fields = Vec::with_capacity(alloc, proj.fields.len())?;
    for (name, expr) in proj.fields.as_slice() {
        put_value(&mut fields, name, eval(expr, left, right))?;
    }
    Row::from_refs(alloc, fields.as_slice())
}
