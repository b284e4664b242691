//! Reading a row from its bytes: each call gives a value and the bytes after it, or none where no value of its kind stands.
ghost use Rattle.std.specs.Prelude.{◌≡◌, IfOk, option_map};
ghost use Rattle.std.specs.Int.{w32, w64};
ghost use Rattle.ks_row.specs.Reading.{bytes_at, number_at, int_at, name_at, field_at, member_at, members_at, members_from};

use crate::row::Field;
use ks_record::{Name, Text};
use std::alloc::{AllocError, Global};

/// The first bytes, so many, and those after them; none where there are fewer. Takes no memory.
pub fn read_bytes(count: usize, bytes: &[u8]) -> Option<(&[u8], &[u8])>
    ensures { option_map (λ x. (x.0.now, x.1.now)) result ≡ bytes_at count bytes.now }
{
    if bytes.len() < count {
        return None;
    }
    Some(bytes.split_at(count))
}

/// A number of four bytes, the highest first; none where there are fewer bytes. Takes no memory.
pub fn read_u32(bytes: &[u8]) -> Option<(u32, &[u8])>
    ensures { option_map (λ x. (x.0, x.1.now)) result ≡ number_at w32 bytes.now }
{
    let (front, rest) = bytes.split_first_chunk::<4>()?;
    Some((u32::from_be_bytes(*front), rest))
}

/// A number of eight bytes, the highest first; none where there are fewer bytes. Takes no memory.
pub fn read_u64(bytes: &[u8]) -> Option<(u64, &[u8])>
    ensures { option_map (λ x. (x.0, x.1.now)) result ≡ number_at w64 bytes.now }
{
    let (front, rest) = bytes.split_first_chunk::<8>()?;
    Some((u64::from_be_bytes(*front), rest))
}

/// A signed number of eight bytes, two's complement, the highest first; none where there are fewer bytes. Takes no memory.
pub fn read_i64(bytes: &[u8]) -> Option<(i64, &[u8])>
    ensures { option_map (λ x. (x.0, x.1.now)) result ≡ int_at bytes.now }
{
    let (front, rest) = bytes.split_first_chunk::<8>()?;
    Some((i64::from_be_bytes(*front), rest))
}

#[tactic(auto, unfolding(crate::specs::Reading::name_at))]
fn read_name(alloc: Global, bytes: &[u8]) -> Result<Option<(Name, &[u8])>, AllocError>
    ensures { IfOk result (λ o. option_map (λ x. (x.0, x.1.now)) o ≡ name_at bytes.now) }
{
    let Some((length, rest)) = bytes.split_first() else {
        return Ok(None);
    };
    let Some((front, rest)) = read_bytes(*length as usize, rest) else {
        return Ok(None);
    };
    let Some(name) = Name::of(alloc, front)? else {
        return Ok(None);
    };
    Ok(Some((name, rest)))
}

#[tactic(auto, unfolding(crate::specs::Reading::field_at))]
fn read_field(alloc: Global, bytes: &[u8]) -> Result<Option<(Field, &[u8])>, AllocError>
    ensures { IfOk result (λ o. option_map (λ x. (x.0, x.1.now)) o ≡ field_at bytes.now) }
{
    match bytes {
        [0, rest @ ..] => {
            let Some((number, rest)) = read_i64(rest) else {
                return Ok(None);
            };
            Ok(Some((Field::Int(number), rest)))
        }
        [1, rest @ ..] => {
            let Some((length, rest)) = read_u32(rest) else {
                return Ok(None);
            };
            let Some((front, rest)) = read_bytes(length as usize, rest) else {
                return Ok(None);
            };
            let Some(text) = Text::of(alloc, front)? else {
                return Ok(None);
            };
            Ok(Some((Field::Text(text), rest)))
        }
        _ => Ok(None),
    }
}

#[tactic(auto, unfolding(crate::specs::Reading::member_at))]
fn read_member(alloc: Global, bytes: &[u8]) -> Result<Option<((Name, Field), &[u8])>, AllocError>
    ensures { IfOk result (λ o. option_map (λ x. (x.0, x.1.now)) o ≡ member_at bytes.now) }
{
    let Some((name, rest)) = read_name(alloc, bytes)? else {
        return Ok(None);
    };
    let Some((field, rest)) = read_field(alloc, rest)? else {
        return Ok(None);
    };
    Ok(Some(((name, field), rest)))
}

fn read_members(
    alloc: Global,
    count: u8,
    bytes: &[u8],
) -> Result<Option<(Vec<(Name, Field)>, &[u8])>, AllocError>
    ensures { IfOk result (λ o. option_map (λ x. (x.0.items, x.1.now)) o
        ≡ members_at count bytes.now) }
{
    let mut members = Vec::with_capacity(alloc, count as usize)?;
    let mut rest = bytes;
    for _ in 0..count {
        let Some((member, after)) = read_member(alloc, rest)? else {
            return Ok(None);
        };
        members.push(member)?;
        rest = after;
    }
    Ok(Some((members, rest)))
}

/// The members that the bytes spell one after the other, all of them, whatever names they have; none where they don't.
#[tactic(auto, unfolding(crate::specs::Reading::members_from))]
pub(crate) fn read_row_members(
    alloc: Global,
    bytes: &[u8],
) -> Result<Option<Vec<(Name, Field)>>, AllocError>
    ensures { IfOk result (λ o. option_map (λ v. v.items) o ≡ members_from bytes.now) }
{
    let Some((count, rest)) = bytes.split_first() else {
        return Ok(None);
    };
    let Some((members, rest)) = read_members(alloc, *count, rest)? else {
        return Ok(None);
    };
    if rest.is_empty() {
        Ok(Some(members))
    } else {
        Ok(None)
    }
}
