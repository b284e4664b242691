//! Whether bytes spell a row, told where they stand.
ghost use Rattle.std.specs.Prelude.{◌≡◌, option_map, is_some, true, false};
ghost use Rattle.std.specs.Ordering.{nat_cmp, is_lt};
ghost use Rattle.std.specs.Cmp.Lexicographic.{slice_cmp};
ghost use Rattle.ks_record.specs.Texts.{name_from, text_from};
ghost use Rattle.ks_row.specs.Reading.{name_at, field_at, member_at, row_from};
ghost use Rattle.ks_row.specs.Judged.{after_field, named_at, rest_after, whole_rest};

use crate::reading::{read_bytes, read_i64, read_u32};
use ks_record::utf8_text;

// The bytes where they are a name.
fn name_in(bytes: &[u8]) -> Option<&[u8]>
    ensures { option_map (λ x. x.now) result ≡ name_from bytes.now }
{
    utf8_text(bytes)?;
    if bytes.is_empty() || bytes.len() > 64 {
        return None;
    }
    Some(bytes)
}

// The bytes where they are a text.
fn text_in(bytes: &[u8]) -> Option<&[u8]>
    ensures { option_map (λ x. x.now) result ≡ text_from bytes.now }
{
    utf8_text(bytes)?;
    if bytes.len() > 65536 {
        return None;
    }
    Some(bytes)
}

/// Whether bytes are a name. Takes no memory.
pub fn is_name(bytes: &[u8]) -> bool
    ensures { result ≡ is_some (name_from bytes.now) }
{
    name_in(bytes).is_some()
}

/// Whether bytes are a text. Takes no memory.
pub fn is_text(bytes: &[u8]) -> bool
    ensures { result ≡ is_some (text_from bytes.now) }
{
    text_in(bytes).is_some()
}

// A name behind its length, and the bytes after it.
#[tactic(auto, unfolding(crate::specs::Reading::name_at))]
fn read_name(bytes: &[u8]) -> Option<(&[u8], &[u8])>
    ensures { option_map (λ x. (x.0.now, x.1.now)) result ≡ name_at bytes.now }
{
    let (length, rest) = bytes.split_first()?;
    let (front, rest) = read_bytes(*length as usize, rest)?;
    let name = name_in(front)?;
    Some((name, rest))
}

// The bytes after a field.
#[tactic(auto, unfolding(crate::specs::Reading::field_at))]
fn skip_field(bytes: &[u8]) -> Option<&[u8]>
    ensures { option_map (λ x. x.now) result ≡ after_field bytes.now }
{
    match bytes {
        [0, rest @ ..] => {
            let (_, rest) = read_i64(rest)?;
            Some(rest)
        }
        [1, rest @ ..] => {
            let (length, rest) = read_u32(rest)?;
            let (front, rest) = read_bytes(length as usize, rest)?;
            text_in(front)?;
            Some(rest)
        }
        _ => None,
    }
}

// A member's name, and the bytes after the member.
#[tactic(auto, unfolding(crate::specs::Reading::member_at))]
fn read_member(bytes: &[u8]) -> Option<(&[u8], &[u8])>
    ensures { option_map (λ x. (x.0.now, x.1.now)) result ≡ named_at bytes.now }
{
    let (name, rest) = read_name(bytes)?;
    let rest = skip_field(rest)?;
    Some((name, rest))
}

/// Whether bytes are below others, by the first that differs; what others begin with is below them. Takes no memory.
pub fn is_below(a: &[u8], b: &[u8]) -> bool
    ensures { result ≡ is_lt (slice_cmp nat_cmp a.now b.now) }
{
    let mut left = a;
    let mut right = b;
    while let [y, more_right @ ..] = right {
        let [x, more_left @ ..] = left else {
            return true;
        };
        if *x != *y {
            return *x < *y;
        }
        left = more_left;
        right = more_right;
    }
    false
}

// The bytes after so many members, whose names rise from this one on.
fn rest_of<'a>(name: &'a [u8], count: u8, bytes: &'a [u8]) -> Option<&'a [u8]>
    ensures { option_map (λ x. x.now) result ≡ rest_after name.now count bytes.now }
{
    let mut last = name;
    let mut left = count;
    let mut rest = bytes;
    while left > 0 {
        let (next, after) = read_member(rest)?;
        if !is_below(last, next) {
            return None;
        }
        last = next;
        left -= 1;
        rest = after;
    }
    Some(rest)
}

// The bytes after all members, where there are 1 to 64 and their names rise.
fn rest_of_row(bytes: &[u8]) -> Option<&[u8]>
    ensures { option_map (λ x. x.now) result ≡ whole_rest bytes.now }
{
    let (count, rest) = bytes.split_first()?;
    if *count == 0 || *count > 64 {
        return None;
    }
    let (name, rest) = read_member(rest)?;
    rest_of(name, *count - 1, rest)
}

/// Whether the bytes, all of them, spell a row. Takes no memory.
#[tactic(auto, using(crate::proofs::Judged::told_row))]
pub fn spells_row(bytes: &[u8]) -> bool
    ensures { result ≡ is_some (row_from bytes.now) }
{
    match rest_of_row(bytes) {
        Some(rest) => rest.is_empty(),
        None => false,
    }
}
