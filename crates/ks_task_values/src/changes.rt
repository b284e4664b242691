//! Whether a stored value is another one after a step, by its bytes where they stand encoded.
ghost use Rattle.std.specs.Prelude.{◌≡◌, ◌==◌, Some, None, IfOk, IfSome, option_map, not};
ghost use Rattle.std.specs.Ordering.{eq_by_cmp, int_cmp};
ghost use Rattle.std.specs.Cmp.Lexicographic.{pointwise};
ghost use Rattle.ks_row.specs.Reading.{row_from};
ghost use Rattle.ks_def_tasks.specs.Messages.Stored.{OfRow, OfAgg};
ghost use Rattle.ks_def_tasks.specs.Messages.{same_agg, same_bool, same_stored, same_option, same_row};
ghost use Rattle.ks_task_nodes.specs.Stored.{stored_in, value_view};
ghost use Rattle.ks_task_values.specs.Changes.{changed_bytes, is_other, number_shown};

use ks_record::Blob;
use ks_row::{Row, decode, spells_row};
use ks_task_nodes::{
    EncodedRow, NewValue, StoredValue, is_absent, is_same_agg, is_same_bool, is_same_number,
    row_after, stored_row,
};
use ks_wire::{Agg, write_agg};
use std::alloc::{AllocError, Global};

fn are_equal(a: &[u8], b: &[u8]) -> bool
    ensures { result ≡ pointwise ◌==◌ a.now b.now }
{
    a == b
}

// A row has one spelling, so that bytes are compared and no row is read. Takes no memory.
fn is_spelling(bytes: &[u8], row: &EncodedRow<'_>) -> bool
    ensures { result ≡ same_option same_stored (option_map OfRow (row_from bytes.now))
        (Some (OfRow row.now)) }
{
    are_equal(bytes, row.bytes())
}

fn is_this_row(old: Option<StoredValue<'_>>, row: &EncodedRow<'_>) -> bool
    ensures { result ≡ same_option same_stored (stored_in old.entry) (Some (OfRow row.now)) }
{
    match old {
        Some(StoredValue::Row(bytes)) => is_spelling(bytes, row),
        _ => false,
    }
}

fn is_this_aggregate(old: Option<StoredValue<'_>>, is_count: bool, agg: &Agg) -> bool
    ensures { result ≡ same_option same_stored (stored_in old.entry)
        (Some (OfAgg is_count agg.now)) }
{
    match old {
        Some(
            StoredValue::Aggregate {
                is_count: count,
                agg: other,
            },
        ) => is_same_bool(count, is_count) && is_same_agg(&other, agg),
        _ => false,
    }
}

fn changed_to_row(
    alloc: Global,
    old: Option<StoredValue<'_>>,
    row: &EncodedRow<'_>,
) -> Result<Option<Option<Blob>>, AllocError>
    ensures { IfOk result (λ o. o ≡ changed_bytes (stored_in old.entry) (Some (OfRow row.now))) }
{
    if is_this_row(old, row) {
        return Ok(None);
    }
    Ok(Some(Some(Blob::from_slice(alloc, row.bytes())?)))
}

fn changed_to_made(
    alloc: Global,
    old: Option<StoredValue<'_>>,
    row: &Row,
) -> Result<Option<Option<Blob>>, AllocError>
    ensures { IfOk result (λ o. o ≡ changed_bytes (stored_in old.entry) (Some (OfRow row.now))) }
{
    changed_to_row(alloc, old, &EncodedRow::of_row(row))
}

fn changed_to_aggregate(
    alloc: Global,
    old: Option<StoredValue<'_>>,
    is_count: bool,
    agg: &Agg,
) -> Result<Option<Option<Blob>>, AllocError>
    ensures { IfOk result (λ o. o ≡ changed_bytes (stored_in old.entry)
        (Some (OfAgg is_count agg.now))) }
{
    if is_this_aggregate(old, is_count, agg) {
        return Ok(None);
    }
    Ok(Some(Some(write_agg(alloc, agg)?)))
}

fn changed_to_none(old: Option<StoredValue<'_>>) -> Option<Option<Blob>>
    ensures { result ≡ changed_bytes (stored_in old.entry) None }
{
    if is_absent(old) { None } else { Some(None) }
}

fn changed_to_bytes(
    alloc: Global,
    old: Option<StoredValue<'_>>,
    bytes: &[u8],
) -> Result<Option<Option<Blob>>, AllocError>
    ensures { IfOk result (λ o. o ≡ changed_bytes (stored_in old.entry)
        (option_map OfRow (row_from bytes.now))) }
{
    match EncodedRow::of(bytes) {
        Some(row) => changed_to_row(alloc, old, &row),
        None => Ok(changed_to_none(old)),
    }
}

// Equal bytes are compared first: no row is looked at where a value stays.
#[tactic(auto, using(crate::proofs::Compared::nothing_changed))]
fn changed_between(
    alloc: Global,
    old: &[u8],
    new: &[u8],
) -> Result<Option<Option<Blob>>, AllocError>
    ensures { IfOk result (λ o. o ≡ changed_bytes (option_map OfRow (row_from old.now))
        (option_map OfRow (row_from new.now))) }
{
    if are_equal(old, new) {
        return Ok(None);
    }
    changed_to_bytes(alloc, Some(StoredValue::Row(old)), new)
}

fn changed_to_stored(
    alloc: Global,
    old: Option<StoredValue<'_>>,
    new: Option<StoredValue<'_>>,
) -> Result<Option<Option<Blob>>, AllocError>
    ensures { IfOk result (λ o. o ≡ changed_bytes (stored_in old.entry) (stored_in new.entry)) }
{
    match (old, new) {
        (Some(StoredValue::Row(before)), Some(StoredValue::Row(now))) => {
            changed_between(alloc, before, now)
        }
        (_, Some(StoredValue::Row(now))) => changed_to_bytes(alloc, old, now),
        (_, Some(StoredValue::Aggregate { is_count, agg })) => {
            changed_to_aggregate(alloc, old, is_count, &agg)
        }
        (_, None) => Ok(changed_to_none(old)),
    }
}

/// What is to be written of a value after a step: none where the value stays, and else the bytes that spell it, or that it is
/// gone. Want of memory is the one error.
pub fn changed_value(
    alloc: Global,
    old: Option<StoredValue<'_>>,
    new: &NewValue<'_>,
) -> Result<Option<Option<Blob>>, AllocError>
    ensures { IfOk result (λ o. o ≡ changed_bytes (stored_in old.entry) (value_view new.now)) }
{
    match new {
        NewValue::Unchanged(new) => changed_to_stored(alloc, old, *new),
        NewValue::Absent => Ok(changed_to_none(old)),
        NewValue::Encoded(row) => changed_to_row(alloc, old, row),
        NewValue::Row(row) => changed_to_made(alloc, old, row),
        NewValue::Aggregate { is_count, agg } => changed_to_aggregate(alloc, old, *is_count, agg),
    }
}

fn is_same_row(a: &Row, b: &Row) -> bool
    ensures { result ≡ same_row a.now b.now }
{
    is_spelling(a.as_bytes(), &EncodedRow::of_row(b))
}

fn is_changed_row(old: &Option<Row>, new: &Option<Row>) -> bool
    ensures { result ≡ not (same_option same_row old.now new.now) }
{
    match (old, new) {
        (None, None) => false,
        (Some(a), Some(b)) => !is_same_row(a, b),
        _ => true,
    }
}

// By the rows themselves.
fn is_other_made(
    alloc: Global,
    old: Option<StoredValue<'_>>,
    new: &NewValue<'_>,
) -> Result<bool, AllocError>
    ensures { IfOk result (λ c. c ≡ is_other (stored_in old.entry) (value_view new.now)) }
{
    let before = stored_row(alloc, old)?;
    let Ok(now) = row_after(alloc, new) else {
        drop(before);
        return Err(AllocError);
    };
    let is_changed = is_changed_row(&before, &now);
    drop(before);
    drop(now);
    Ok(is_changed)
}

#[tactic(auto, using(crate::proofs::Compared::same_shown))]
fn is_other_spelling(old: &[u8], new: &EncodedRow<'_>) -> bool
    ensures { result ≡ is_other (option_map OfRow (row_from old.now)) (Some (OfRow new.now)) }
{
    !is_spelling(old, new)
}

fn is_other_than(old: &[u8], new: &Row) -> bool
    ensures { result ≡ is_other (option_map OfRow (row_from old.now)) (Some (OfRow new.now)) }
{
    is_other_spelling(old, &EncodedRow::of_row(new))
}

// Equal bytes are compared first.
#[tactic(auto, using(crate::proofs::Compared::nothing_other))]
fn is_other_bytes(alloc: Global, old: &[u8], new: &[u8]) -> Result<bool, AllocError>
    ensures { IfOk result (λ c. c ≡ is_other (option_map OfRow (row_from old.now))
        (option_map OfRow (row_from new.now))) }
{
    if are_equal(old, new) {
        return Ok(false);
    }
    let before = decode(alloc, old)?;
    let Ok(now) = decode(alloc, new) else {
        drop(before);
        return Err(AllocError);
    };
    let is_changed = is_changed_row(&before, &now);
    drop(before);
    drop(now);
    Ok(is_changed)
}

// The number that an aggregate's row shows.
fn shown_number(is_count: bool, agg: &Agg) -> i64
    ensures { result ≡ number_shown is_count agg.now }
{
    if is_count { agg.members } else { agg.total }
}

// Whether the rows of two aggregates are others.
#[tactic(auto, using(crate::proofs::Compared::same_totals, crate::proofs::Compared::other_totals))]
fn is_other_total(old_is_count: bool, old: &Agg, is_count: bool, new: &Agg) -> bool
    ensures { result ≡ is_other (Some (OfAgg old_is_count old.now))
        (Some (OfAgg is_count new.now)) }
{
    if is_same_bool(old_is_count, is_count) {
        !is_same_number(shown_number(is_count, old), shown_number(is_count, new))
    } else {
        true
    }
}

// Whether a value is other than none; where one is given it isn't read.
fn is_other_than_none(new: &NewValue<'_>) -> Option<bool>
    ensures { IfSome result (λ b. b ≡ is_other None (value_view new.now)) }
{
    match new {
        NewValue::Unchanged(_) => None,
        NewValue::Absent => Some(false),
        _ => Some(true),
    }
}

/// Whether the nodes below see another row than before. Rows are read only where bytes do not tell. Want of memory is the one error.
pub fn is_other_row(
    alloc: Global,
    old: Option<StoredValue<'_>>,
    new: &NewValue<'_>,
) -> Result<bool, AllocError>
    ensures { IfOk result (λ c. c ≡ is_other (stored_in old.entry) (value_view new.now)) }
{
    match (old, new) {
        (Some(StoredValue::Row(before)), NewValue::Unchanged(Some(StoredValue::Row(now)))) => {
            is_other_bytes(alloc, before, now)
        }
        (Some(StoredValue::Row(before)), NewValue::Encoded(row)) => {
            Ok(is_other_spelling(before, row))
        }
        (Some(StoredValue::Row(before)), NewValue::Row(row)) => Ok(is_other_than(before, row)),
        (Some(StoredValue::Row(before)), NewValue::Absent) => Ok(spells_row(before)),
        (
            Some(
                StoredValue::Aggregate {
                    is_count: before,
                    agg: old,
                },
            ),
            NewValue::Aggregate { is_count, agg },
        ) => Ok(is_other_total(before, &old, *is_count, agg)),
        (None, _) => match is_other_than_none(new) {
            Some(is_other) => Ok(is_other),
            None => is_other_made(alloc, old, new),
        },
        _ => is_other_made(alloc, old, new),
    }
}
