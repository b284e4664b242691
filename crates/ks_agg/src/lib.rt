//! Aggregates of tables and streams: what one item or one row adds, what it sends to its groups, and the row that is shown.
#![tactic(auto)]

ghost use Rattle.std.specs.Prelude.{◌≡◌, ◌++◌, true, false, map, Option, Some, None, option_copied, option_map, IfOk, OnOk};
ghost use Rattle.ks_query.specs.Aggregates.{stream_add, amount_in, table_apply, agg_row, table_parts, int_of, plus, minus, or_nothing, with_members, moved, share_under, same_share, deltas_of};

use ks_record::{Key, Name, equal_bytes, equal_numbers};
use ks_row::{Change, FieldRef, Row, key_of_field};
use ks_wire::{Agg, Delta};
use std::alloc::{AllocError, Global};

const NOTHING_YET: Agg = Agg {
    members: 0,
    total: 0,
};

/// What a row adds to the total of a sum's field: its number, and 0 where it is absent or a text; 0 for a count.
fn amount_of(field: Option<&Name>, row: &Row) -> i64
    ensures { result ≡ amount_in (option_copied field.entry) row.now }
{
    let Some(name) = field else {
        return 0;
    };
    match row.get(name.as_str().as_bytes()) {
        Some(FieldRef::Int(number)) => number,
        _ => 0,
    }
}

fn plus(agg: Agg, amount: i64) -> Agg
    ensures { result ≡ plus agg amount }
{
    Agg {
        members: agg.members.wrapping_add(1),
        total: agg.total.wrapping_add(amount),
    }
}

fn minus(agg: Agg, amount: i64) -> Agg
    ensures { result ≡ minus agg amount }
{
    Agg {
        members: agg.members.wrapping_sub(1),
        total: agg.total.wrapping_sub(amount),
    }
}

/// The aggregate of a group with one more item of a stream; `field` is that of a sum, none for a count.
pub fn stream_add(field: Option<&Name>, old: Option<Agg>, row: &Row) -> Agg
    ensures { result ≡ stream_add (option_copied field.entry) old row.now }
{
    plus(old.unwrap_or(NOTHING_YET), amount_of(field, row))
}

fn moved(agg: Agg, delta: Delta) -> Agg
    ensures { result ≡ moved agg delta }
{
    if delta.add {
        plus(agg, delta.amount)
    } else {
        minus(agg, delta.amount)
    }
}

fn with_members(agg: Agg) -> Option<Agg>
    ensures { result ≡ with_members agg }
{
    if agg.members == 0 { None } else { Some(agg) }
}

/// The aggregate of a group after one row of a table joined or left; none where no member is left.
pub fn table_apply(old: Option<Agg>, delta: Delta) -> Option<Agg>
    ensures { result ≡ table_apply old delta }
{
    with_members(moved(old.unwrap_or(NOTHING_YET), delta))
}

/// The row that an aggregate is shown as: `{"count": members}`, or `{"sum": total}`.
pub fn agg_row(alloc: Global, count: bool, agg: Agg) -> Result<Row, AllocError>
    ensures { IfOk result (λ r. r ≡ agg_row count agg) }
{
    let (text, number) = if count {
        ("count", agg.members)
    } else {
        ("sum", agg.total)
    };
    match Row::of_number(alloc, text, number)? {
        Some(row) => Ok(row),
        None => unreachable!(),
    }
}

/// The group of a row and what the row adds to it; none where the row is none or its field gives no key.
fn share_under(
    alloc: Global,
    by: &Name,
    field: Option<&Name>,
    row: Option<&Row>,
) -> Result<Option<(Key, i64)>, AllocError>
    ensures { IfOk result (λ o. o ≡ share_under by.now (option_copied field.entry)
        (option_copied row.entry)) }
{
    let Some(row) = row else {
        return Ok(None);
    };
    let Some(group) = key_of_field(alloc, row, by.as_str().as_bytes())? else {
        return Ok(None);
    };
    Ok(Some((group, amount_of(field, row))))
}

fn is_same_share(old: &Option<(Key, i64)>, new: &Option<(Key, i64)>) -> bool
    ensures { result ≡ same_share old.now new.now }
{
    match (old, new) {
        (None, None) => true,
        (Some(before), Some(now)) => {
            equal_bytes(before.0.as_str().as_bytes(), now.0.as_str().as_bytes())
                && equal_numbers(before.1, now.1)
        }
        _ => false,
    }
}

fn push_delta(
    parts: &mut Vec<(Key, Delta)>,
    add: bool,
    share: Option<(Key, i64)>,
) -> Result<(), AllocError>
    ensures { OnOk result (parts.new.items ≡ parts.old.items ++ deltas_of add share) }
{
    if let Some((group, amount)) = share {
        parts.push((group, Delta { add, amount }))?;
    }
    Ok(())
}

// The subtraction of a share, then the addition of another one.
fn parts_between(
    alloc: Global,
    before: Option<(Key, i64)>,
    now: Option<(Key, i64)>,
) -> Result<Vec<(Key, Delta)>, AllocError>
    ensures { IfOk result (λ v. v.items ≡ deltas_of false before ++ deltas_of true now) }
{
    let Ok(mut parts) = Vec::with_capacity(alloc, 2) else {
        drop(before);
        drop(now);
        return Err(AllocError);
    };
    let Ok(()) = push_delta(&mut parts, false, before) else {
        drop(now);
        return Err(AllocError);
    };
    push_delta(&mut parts, true, now)?;
    Ok(parts)
}

/// What a changed row of a table sends to its groups: the subtraction from the old group, then the addition to the new one;
/// nothing where group and amount both stay. `field` is that of a sum, none for a count.
pub fn table_parts(
    alloc: Global,
    by: &Name,
    field: Option<&Name>,
    change: &Change,
) -> Result<Vec<(Key, Delta)>, AllocError>
    ensures { IfOk result (λ v. v.items ≡ table_parts by.now (option_copied field.entry)
        change.now.old change.now.new) }
{
    let before = share_under(alloc, by, field, change.old.as_ref())?;
    let Ok(now) = share_under(alloc, by, field, change.new.as_ref()) else {
        drop(before);
        return Err(AllocError);
    };
    if is_same_share(&before, &now) {
        drop(before);
        drop(now);
        Ok(Vec::new(alloc))
    } else {
        parts_between(alloc, before, now)
    }
}
