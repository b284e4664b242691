//! The parts of operations, where they have them.
ghost use Rattle.std.specs.Prelude.{◌≡◌, ◌≤◌, option_map, option_copied, IfSome};
ghost use Rattle.ks_expr.specs.Terms.{test_of, set_of};
ghost use Rattle.ks_plan.specs.Drafts.{op_view};
ghost use Rattle.ks_oracle.specs.Nodes.{test_in as has_test, set_in as has_set, key_in as has_key, group_in as has_group, window_in as has_window, join_in as has_join, foreign_in as has_foreign};
ghost use Rattle.ks_plan.specs.Plan.{natural, or_number, window_of};
ghost use Rattle.ks_oracle.specs.Hops.{hops_view};

use ks_expr::{Fk, JoinKind, Pred, Proj};
use ks_record::Name;
use ks_topo::Op;

/// Windows, in milliseconds.
#[derive(Clone, Copy)]
pub struct Hops {
    pub size: u64,
    pub advance: u64,
    pub grace: u64,
}

/// The predicate of a filter.
pub fn test_in(op: &Op) -> Option<&Pred>
    ensures { option_map (λ p. test_of p.now) result ≡ has_test (op_view op.now) }
{
    match op {
        Op::Filter { test, .. } => Some(test),
        _ => None,
    }
}

/// The projection of a `map_values`.
pub fn set_in(op: &Op) -> Option<&Proj>
    ensures { option_map (λ s. set_of s.now) result ≡ has_set (op_view op.now) }
{
    match op {
        Op::MapValues { set, .. } => Some(set),
        _ => None,
    }
}

/// The field of a `select_key`.
pub fn key_in(op: &Op) -> Option<&Name>
    ensures { option_copied result ≡ has_key (op_view op.now) }
{
    match op {
        Op::SelectKey { key, .. } => Some(key),
        _ => None,
    }
}

/// The group and the field of an aggregate; a count has no field.
pub fn group_in(op: &Op) -> Option<(Option<&Name>, Option<&Name>)>
    ensures { option_map (λ g. (option_copied g.0, option_copied g.1)) result
        ≡ has_group (op_view op.now) }
{
    match op {
        Op::Count { by, .. } => Some((by.as_ref(), None)),
        Op::Sum { by, field, .. } => Some((by.as_ref(), Some(field))),
        _ => None,
    }
}

/// The kind and the projection of a join by key.
pub fn join_in(op: &Op) -> Option<(JoinKind, &Proj)>
    ensures { option_map (λ j. (j.0, set_of j.1.now)) result ≡ has_join (op_view op.now) }
{
    match op {
        Op::Join { kind, set, .. } => Some((*kind, set)),
        _ => None,
    }
}

/// The foreign key of a join on one, its kind and its projection.
pub fn foreign_in(op: &Op) -> Option<(&Fk, (JoinKind, &Proj))>
    ensures { option_map (λ j. (j.0.now, (j.1.0, set_of j.1.1.now))) result
        ≡ has_foreign (op_view op.now) }
{
    match op {
        Op::FkJoin { fk, kind, set, .. } => Some((fk, (*kind, set))),
        _ => None,
    }
}

// A number as a count; below 0 it is none.
fn natural(number: i64) -> u64
    ensures { result ≡ natural number }
{
    if number < 0 { 0 } else { number as u64 }
}

fn or_number(number: Option<i64>, other: u64) -> u64
    ensures { result ≡ or_number number other }
{
    match number {
        Some(number) => natural(number),
        None => other,
    }
}

fn hops_of(size: i64, advance: Option<i64>, grace: Option<i64>) -> Hops
    ensures { hops_view result ≡ window_of size advance grace }
{
    let size = natural(size);
    Hops {
        size,
        advance: or_number(advance, size),
        grace: or_number(grace, 86_400_000),
    }
}

/// The group of a windowed count, and its windows, where the advance is at least 1 and at most the size.
pub fn window_in(op: &Op) -> Option<(Option<&Name>, Hops)>
    ensures window { option_map (λ g. (option_copied g.0, hops_view g.1)) result
        ≡ has_window (op_view op.now) }
    ensures good { IfSome result (λ g. (1 ≤ g.1.advance) × (g.1.advance ≤ g.1.size)) }
{
    match op {
        Op::WindowedCount {
            by,
            size,
            advance,
            grace,
            ..
        } => {
            let hops = hops_of(*size, *advance, *grace);
            if 1 <= hops.advance && hops.advance <= hops.size {
                Some((by.as_ref(), hops))
            } else {
                None
            }
        }
        _ => None,
    }
}
