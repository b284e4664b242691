//! What a line's values tell: each call takes the first of some values, and gives those after it.
ghost use Rattle.std.specs.Prelude.{◌≡◌, ◌<◌, ◌^◌, ◌++◌, ◌∷◌, [], ℕ, List, length, None, IfOk, IfSome, option_copied, option_map};
ghost use Rattle.serde_json.specs.Find.{as_bool};
ghost use Rattle.serde_json.specs.View.{view, items_view};
ghost use Rattle.ks_journal.specs.Reading.{first, below_in, whole_in, worker_at, count_at, truth_at, task_at, part_at, nibble, decimal_at, continues, task_from, bytes_from, bytes_onto, bytes_in, rec_in, pair_in, place_in, pair_at, place_at, only, at_end, byte_from};
ghost use Rattle.ks_journal_line.specs.Parts.{timed_rec};

use ks_record::{Blob, PartId, Rec, RecordRef, TaskId};
use serde_json::Value;
use std::alloc::{AllocError, Global};

pub(crate) fn take_u8(items: &[Value]) -> Option<(u8, &[Value])>
    ensures { option_map (λ x. (x.0, items_view x.1.now)) result
        ≡ worker_at (items_view items.now) }
{
    let [first, rest @ ..] = items else {
        return None;
    };
    let number = first.as_u64()?;
    if number < 256 {
        Some((number as u8, rest))
    } else {
        None
    }
}

pub(crate) fn take_u16(items: &[Value]) -> Option<(u16, &[Value])>
    ensures { option_map (λ x. (x.0, items_view x.1.now)) result
        ≡ first (below_in 65536) (items_view items.now) }
{
    let [first, rest @ ..] = items else {
        return None;
    };
    let number = first.as_u64()?;
    if number < 65536 {
        Some((number as u16, rest))
    } else {
        None
    }
}

pub(crate) fn take_u32(items: &[Value]) -> Option<(u32, &[Value])>
    ensures { option_map (λ x. (x.0, items_view x.1.now)) result
        ≡ first (below_in (2 ^ 32)) (items_view items.now) }
{
    let [first, rest @ ..] = items else {
        return None;
    };
    let number = first.as_u64()?;
    if number < 4294967296 {
        Some((number as u32, rest))
    } else {
        None
    }
}

pub(crate) fn take_u64(items: &[Value]) -> Option<(u64, &[Value])>
    ensures { option_map (λ x. (x.0, items_view x.1.now)) result ≡ count_at (items_view items.now) }
{
    let [first, rest @ ..] = items else {
        return None;
    };
    let number = first.as_u64()?;
    Some((number, rest))
}

pub(crate) fn take_bool(items: &[Value]) -> Option<(bool, &[Value])>
    ensures { option_map (λ x. (x.0, items_view x.1.now)) result ≡ truth_at (items_view items.now) }
{
    let [first, rest @ ..] = items else {
        return None;
    };
    let truth = first.as_bool()?;
    Some((truth, rest))
}

/// The value, where nothing is left.
pub(crate) fn if_all<T: Drop>(rest: &[Value], value: T) -> Option<T>
    ensures value { result ≡ at_end (value, items_view rest.now) }
    ensures same { IfSome result (λ x. x ≡ value) }
{
    match rest {
        [] => Some(value),
        [_first, _more @ ..] => None,
    }
}

pub(crate) fn take_part(items: &[Value]) -> Option<(PartId, &[Value])>
    ensures { option_map (λ x. (x.0, items_view x.1.now)) result ≡ part_at (items_view items.now) }
{
    let (topic, rest) = take_u16(items)?;
    let (part, rest) = take_u8(rest)?;
    Some((PartId { topic, part }, rest))
}

fn continues(number: u64, byte: u8) -> bool
    ensures { result ≡ continues number byte }
{
    48 <= byte && byte < 58 && number < 100
}

// The number at the front, of at most three digits, and what follows it.
fn decimal_at(number: u64, text: &[u8]) -> (u64, &[u8])
    requires { number < 1000 }
    ensures value { (result.0, result.1.now) ≡ decimal_at number text.now }
    ensures few { result.0 < 1000 }
{
    match text {
        [byte, rest @ ..] if continues(number, *byte) => {
            decimal_at(number * 10 + (*byte as u64 - 48), rest)
        }
        _ => (number, text),
    }
}

fn nibble(byte: u8) -> Option<u8>
    ensures value { result ≡ nibble byte }
    ensures few { IfSome result (λ n. n < 16) }
{
    if byte < 48 {
        None
    } else if byte < 58 {
        Some(byte - 48)
    } else if byte < 97 {
        None
    } else if byte < 103 {
        Some(byte - 87)
    } else {
        None
    }
}

fn read_task(text: &[u8]) -> Option<TaskId>
    ensures { result ≡ task_from text.now }
{
    let (sub, rest) = decimal_at(0, text);
    let [_, rest @ ..] = rest else {
        return None;
    };
    let (part, _) = decimal_at(0, rest);
    if sub < 256 && part < 256 {
        Some(TaskId {
            sub: sub as u8,
            part: part as u8,
        })
    } else {
        None
    }
}

pub(crate) fn take_task(items: &[Value]) -> Option<(TaskId, &[Value])>
    ensures { option_map (λ x. (x.0, items_view x.1.now)) result ≡ task_at (items_view items.now) }
{
    let [first, rest @ ..] = items else {
        return None;
    };
    let text = first.as_str()?;
    let task = read_task(text.as_bytes())?;
    Some((task, rest))
}

fn byte_from(high: u8, low: u8) -> Option<u8>
    ensures { result ≡ byte_from high low }
{
    let high = nibble(high)?;
    let low = nibble(low)?;
    Some(high * 16 + low)
}

// The byte of the first two digits, and the digits after them.
fn next_byte(text: &[u8]) -> Option<(u8, &[u8])>
    requires { 0 < length text.now }
    ensures some { IfSome result (λ x. (found : List ℕ) → bytes_onto found text.now
        ≡ bytes_onto (found ++ x.0 ∷ []) x.1.now) }
    ensures fewer { IfSome result (λ x. length x.1.now < length text.now) }
    ensures none { result ≡ None → (found : List ℕ) → bytes_onto found text.now ≡ None }
{
    match text {
        [high, low, rest @ ..] => {
            let byte = byte_from(*high, *low)?;
            Some((byte, rest))
        }
        _ => None,
    }
}

// The bytes of digits of base 16.
fn read_hex(alloc: Global, text: &[u8]) -> Result<Option<Vec<u8>>, AllocError>
    ensures { IfOk result (λ o. option_map (λ v. v.items) o ≡ bytes_from text.now) }
{
    let mut bytes = Vec::new(alloc);
    let mut rest = text;
    while !rest.is_empty() {
        let Some((byte, more)) = next_byte(rest) else {
            return Ok(None);
        };
        bytes.push(byte)?;
        rest = more;
    }
    Ok(Some(bytes))
}

fn read_bytes(alloc: Global, value: &Value) -> Result<Option<Option<Blob>>, AllocError>
    ensures { IfOk result (λ o. o ≡ bytes_in (view value.now)) }
{
    if value.is_null() {
        return Ok(Some(None));
    }
    let Some(text) = value.as_str() else {
        return Ok(None);
    };
    let Some(bytes) = read_hex(alloc, text.as_bytes())? else {
        return Ok(None);
    };
    Ok(Some(Some(Blob::of(bytes)?)))
}

fn take_bytes(
    alloc: Global,
    items: &[Value],
) -> Result<Option<(Option<Blob>, &[Value])>, AllocError>
    ensures { IfOk result (λ o. option_map (λ x. (x.0, items_view x.1.now)) o
        ≡ first bytes_in (items_view items.now)) }
{
    let [first, rest @ ..] = items else {
        return Ok(None);
    };
    let Some(bytes) = read_bytes(alloc, first)? else {
        return Ok(None);
    };
    Ok(Some((bytes, rest)))
}

fn slice_of(bytes: &Option<Blob>) -> Option<&[u8]>
    ensures { option_copied result ≡ bytes.now }
{
    match bytes {
        Some(bytes) => Some(bytes.as_slice()),
        None => None,
    }
}

fn record_of(
    alloc: Global,
    key: &Option<Blob>,
    value: &Option<Blob>,
    ts: u64,
) -> Result<Rec, AllocError>
    ensures { IfOk result (λ r. r ≡ record { key = key.now; value = value.now; ts = ts }) }
{
    let rec = RecordRef {
        key: slice_of(key),
        value: slice_of(value),
        ts,
    };
    Rec::of(alloc, rec)
}

// The record of this key and value, with the time that is left.
fn timed_rec(
    alloc: Global,
    key: &Option<Blob>,
    value: &Option<Blob>,
    rest: &[Value],
) -> Result<Option<Rec>, AllocError>
    ensures { IfOk result (λ o. o ≡ timed_rec key.now value.now (items_view rest.now)) }
{
    let Some((ts, rest)) = take_u64(rest) else {
        return Ok(None);
    };
    let rec = record_of(alloc, key, value, ts)?;
    Ok(if_all(rest, rec))
}

pub(crate) fn read_rec(alloc: Global, value: &Value) -> Result<Option<Rec>, AllocError>
    ensures { IfOk result (λ o. o ≡ rec_in (view value.now)) }
{
    let Some(items) = value.as_array() else {
        return Ok(None);
    };
    let Some((key, rest)) = take_bytes(alloc, items.as_slice())? else {
        return Ok(None);
    };
    let Some((value, rest)) = take_bytes(alloc, rest)? else {
        return Ok(None);
    };
    timed_rec(alloc, &key, &value, rest)
}

fn take_pair(items: &[Value]) -> Option<((u16, u64), &[Value])>
    ensures { option_map (λ x. (x.0, items_view x.1.now)) result ≡ pair_at (items_view items.now) }
{
    let (first, rest) = take_u16(items)?;
    let (second, rest) = take_u64(rest)?;
    Some(((first, second), rest))
}

fn only_pair(items: &[Value]) -> Option<(u16, u64)>
    ensures { result ≡ only pair_at (items_view items.now) }
{
    let (value, rest) = take_pair(items)?;
    if_all(rest, value)
}

pub(crate) fn read_pair(value: &Value) -> Option<(u16, u64)>
    ensures { result ≡ pair_in (view value.now) }
{
    let items = value.as_array()?;
    only_pair(items.as_slice())
}

fn take_held(items: &[Value]) -> Option<((TaskId, u64), &[Value])>
    ensures { option_map (λ x. (x.0, items_view x.1.now)) result
        ≡ place_at whole_in (items_view items.now) }
{
    let (first, rest) = take_task(items)?;
    let (second, rest) = take_u64(rest)?;
    Some(((first, second), rest))
}

fn only_held(items: &[Value]) -> Option<(TaskId, u64)>
    ensures { result ≡ only (place_at whole_in) (items_view items.now) }
{
    let (value, rest) = take_held(items)?;
    if_all(rest, value)
}

pub(crate) fn read_held(value: &Value) -> Option<(TaskId, u64)>
    ensures { result ≡ place_in whole_in (view value.now) }
{
    let items = value.as_array()?;
    only_held(items.as_slice())
}

fn take_place(items: &[Value]) -> Option<((TaskId, u8), &[Value])>
    ensures { option_map (λ x. (x.0, items_view x.1.now)) result
        ≡ place_at (below_in 256) (items_view items.now) }
{
    let (first, rest) = take_task(items)?;
    let (second, rest) = take_u8(rest)?;
    Some(((first, second), rest))
}

fn only_place(items: &[Value]) -> Option<(TaskId, u8)>
    ensures { result ≡ only (place_at (below_in 256)) (items_view items.now) }
{
    let (value, rest) = take_place(items)?;
    if_all(rest, value)
}

pub(crate) fn read_place(value: &Value) -> Option<(TaskId, u8)>
    ensures { result ≡ place_in (below_in 256) (view value.now) }
{
    let items = value.as_array()?;
    only_place(items.as_slice())
}
