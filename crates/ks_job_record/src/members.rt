//! The members of a line's objects.
ghost use Rattle.std.specs.Prelude.{◌≡◌, map};
ghost use Rattle.serde_json.specs.View.{view, members_view};
ghost use Rattle.ks_job_record.specs.Gives.{Gives};
ghost use Rattle.ks_job_record.specs.Members.{own_members as own_members_of, has_name as is_among, is_member, all_known, object_of, member_of, text_of, integer_of, integer_from};

use crate::fault::{LineError, bad_number, bad_shape};
use serde_json::Value;
use serde_json::value::Map;
use std::alloc::Global;

/// What a node does.
#[derive(Clone, Copy, PartialEq, Eq)]
pub enum Kind {
    Stream,
    Table,
    Filter,
    MapValues,
    SelectKey,
    Count,
    Sum,
    WindowedCount,
    Join,
    FkJoin,
}

/// What an object is to be.
#[derive(Clone, Copy, PartialEq, Eq)]
pub enum Form {
    Topology,
    Record,
    Node(Kind),
}

// The members of a node beside its name and its operation.
fn own_members(kind: Kind) -> &'static [&'static str]
    ensures { map (λ n. n.now) result.now ≡ own_members_of kind }
{
    match kind {
        Kind::Stream | Kind::Table => &["topic"],
        Kind::Filter => &["from", "where"],
        Kind::MapValues => &["from", "set"],
        Kind::SelectKey => &["from", "key"],
        Kind::Count => &["from", "by"],
        Kind::Sum => &["from", "by", "field"],
        Kind::WindowedCount => &["from", "by", "size", "advance", "grace"],
        Kind::Join => &["left", "right", "kind", "set"],
        Kind::FkJoin => &["left", "right", "fk", "kind", "set"],
    }
}

// Whether one of the names is this.
fn has_name(names: &[&str], name: &str) -> bool
    ensures { result ≡ is_among (map (λ n. n.now) names.now) name.now }
{
    let mut rest = names;
    while let [first, more @ ..] = rest {
        if *first == name {
            return true;
        }
        rest = more;
    }
    false
}

// Whether an object of this form may have a member of this name.
#[tactic(auto, unfolding(crate::specs::Members::is_member))]
fn is_known(form: Form, name: &str) -> bool
    ensures { result ≡ is_member form name.now }
{
    match form {
        Form::Topology => has_name(&["app", "topics", "nodes", "print"], name),
        Form::Record => has_name(&["topic", "key", "value", "ts"], name),
        Form::Node(kind) => has_name(&["name", "op"], name) || has_name(own_members(kind), name),
    }
}

fn check_known(alloc: Global, form: Form, map: &Map<String, Value>) -> Result<(), LineError>
    ensures { Gives (λ u. tt) result (all_known form (members_view map.now.entries)) }
{
    for (name, _) in map {
        if !is_known(form, name.as_str()) {
            return Err(LineError::Fault(bad_shape(alloc, name.as_str())?));
        }
    }
    Ok(())
}

/// That the value is an object of known members; what is no object is named as given.
#[tactic(auto, unfolding(crate::specs::Members::object_of))]
pub fn read_object(alloc: Global, name: &str, form: Form, value: &Value) -> Result<(), LineError>
    ensures { Gives (λ u. tt) result (object_of name.now form (view value.now)) }
{
    match value.as_object() {
        Some(map) => check_known(alloc, form, map),
        None => Err(LineError::Fault(bad_shape(alloc, name)?)),
    }
}

/// The member of this name; the fault where the value is no object, or has no such member, or there is no memory.
#[tactic(auto, unfolding(crate::specs::Members::member_of))]
pub fn read_member<'a>(alloc: Global, name: &str, value: &'a Value) -> Result<&'a Value, LineError>
    ensures { Gives (λ v. view v.now) result (member_of name.now (view value.now)) }
{
    match value.get(name) {
        Some(inner) => Ok(inner),
        None => Err(LineError::Fault(bad_shape(alloc, name)?)),
    }
}

/// The text of the member of this name; the fault where there is no such member, or it is no text, or there is no memory.
#[tactic(auto, unfolding(crate::specs::Members::text_of))]
pub fn read_text<'a>(alloc: Global, name: &str, value: &'a Value) -> Result<&'a str, LineError>
    ensures { Gives (λ s. s.now) result (text_of name.now (view value.now)) }
{
    let inner = read_member(alloc, name, value)?;
    match inner.as_str() {
        Some(text) => Ok(text),
        None => Err(LineError::Fault(bad_shape(alloc, name)?)),
    }
}

/// The number that the value is.
#[tactic(auto, unfolding(crate::specs::Members::integer_from))]
pub fn read_integer(alloc: Global, name: &str, value: &Value) -> Result<i64, LineError>
    ensures { Gives (λ z. z) result (integer_from name.now (view value.now)) }
{
    let Some(number) = value.as_number() else {
        return Err(LineError::Fault(bad_shape(alloc, name)?));
    };
    match number.as_i64() {
        Some(integer) => Ok(integer),
        None => Err(LineError::Fault(bad_number(alloc, name)?)),
    }
}

/// The number that a member is.
#[tactic(auto, unfolding(crate::specs::Members::integer_of))]
pub fn read_integer_of(alloc: Global, name: &str, value: &Value) -> Result<i64, LineError>
    ensures { Gives (λ z. z) result (integer_of name.now (view value.now)) }
{
    let inner = read_member(alloc, name, value)?;
    read_integer(alloc, name, inner)
}
