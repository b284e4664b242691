//! Reading what tasks say to one another and keep: each call gives the value that the bytes spell, all of them, or none.
ghost use Rattle.std.specs.Prelude.{◌≡◌, ◌≤◌, IfOk, IfSome, option_map};
ghost use Rattle.std.specs.Int.{w128};
ghost use Rattle.ks_row.specs.Reading.{number_at};
ghost use Rattle.ks_wire.specs.Values.{IsPart};
ghost use Rattle.ks_wire.specs.Reading.{hash_at, part_from, named_from, subscription_from, part_or_none, subscriber_from, right_from, response_from, delta_from, agg_from, time_from, long_key_at, subscription_key_from, window_key_from};

use crate::values::{Agg, Delta, Response, Subscriber, Subscription};
use ks_record::Key;
use ks_row::{Row, decode, read_bytes, read_i64, read_u32, read_u64};
use std::alloc::{AllocError, Global};

fn read_u128(bytes: &[u8]) -> Option<(u128, &[u8])>
    ensures { option_map (λ x. (x.0, x.1.now)) result ≡ number_at w128 bytes.now }
{
    if bytes.len() < 16 {
        return None;
    }
    let (front, rest) = bytes.split_at(16);
    let number = u128::from_be_bytes([
        front[0], front[1], front[2], front[3], front[4], front[5], front[6], front[7], front[8],
        front[9], front[10], front[11], front[12], front[13], front[14], front[15],
    ]);
    Some((number, rest))
}

// A hash or none, as the flag says.
#[tactic(auto, unfolding(crate::specs::Reading::hash_at))]
fn read_flagged_hash(flag: u8, bytes: &[u8]) -> Option<(Option<u128>, &[u8])>
    ensures { option_map (λ x. (x.0, x.1.now)) result ≡ hash_at flag bytes.now }
{
    match flag {
        128 => Some((None, bytes)),
        0 => {
            let (hash, rest) = read_u128(bytes)?;
            Some((Some(hash), rest))
        }
        _ => None,
    }
}

// A partition of at most 63, in all of the bytes.
#[tactic(auto, unfolding(crate::specs::Reading::part_from))]
fn read_part(bytes: &[u8]) -> Option<u8>
    ensures part { result ≡ part_from bytes.now }
    ensures most { IfSome result (λ p. p ≤ 63) }
{
    let (number, rest) = read_u32(bytes)?;
    if !rest.is_empty() {
        return None;
    }
    if number <= 63 {
        Some(number as u8)
    } else {
        None
    }
}

// The left key, and of version 1 the partition in the last four bytes.
#[tactic(auto, unfolding(crate::specs::Reading::named_from))]
fn read_named(
    alloc: Global,
    version: u8,
    bytes: &[u8],
) -> Result<Option<(Key, Option<u8>)>, AllocError>
    ensures named { IfOk result (λ o. o ≡ named_from version bytes.now) }
    ensures most { IfOk result (λ o. IfSome o (λ x. IsPart x.1)) }
{
    if version == 0 {
        let Some(key) = Key::of(alloc, bytes)? else {
            return Ok(None);
        };
        return Ok(Some((key, None)));
    }
    let Some((front, rest)) = read_bytes(bytes.len().saturating_sub(4), bytes) else {
        return Ok(None);
    };
    let Some(key) = Key::of(alloc, front)? else {
        return Ok(None);
    };
    let Some(part) = read_part(rest) else {
        return Ok(None);
    };
    Ok(Some((key, Some(part))))
}

#[tactic(auto, unfolding(crate::specs::Reading::subscription_from))]
pub(crate) fn subscription(alloc: Global, bytes: &[u8]) -> Result<Option<Subscription>, AllocError>
    ensures { IfOk result (λ o. o ≡ subscription_from bytes.now) }
{
    let [flag, instruction, rest @ ..] = bytes else {
        return Ok(None);
    };
    let version = *flag % 2;
    let Some((hash, rest)) = read_flagged_hash(*flag - version, rest) else {
        return Ok(None);
    };
    let Some((left, part)) = read_named(alloc, version, rest)? else {
        return Ok(None);
    };
    if *instruction <= 3 {
        Ok(Some(Subscription::new(hash, *instruction, left, part)))
    } else {
        Ok(None)
    }
}

// No partition where no byte is left.
#[tactic(auto, unfolding(crate::specs::Reading::part_or_none))]
fn read_part_or_none(bytes: &[u8]) -> Option<Option<u8>>
    ensures { result ≡ part_or_none bytes.now }
{
    if bytes.is_empty() {
        return Some(None);
    }
    let part = read_part(bytes)?;
    Some(Some(part))
}

#[tactic(auto, unfolding(crate::specs::Reading::subscriber_from))]
pub(crate) fn subscriber(bytes: &[u8]) -> Option<Subscriber>
    ensures { result ≡ subscriber_from bytes.now }
{
    let (hash, rest) = read_u128(bytes)?;
    let part = read_part_or_none(rest)?;
    Some(Subscriber { hash, part })
}

// No row where no byte is left.
#[tactic(auto, unfolding(crate::specs::Reading::right_from))]
fn right_row(alloc: Global, bytes: &[u8]) -> Result<Option<Option<Row>>, AllocError>
    ensures { IfOk result (λ o. o ≡ right_from bytes.now) }
{
    if bytes.is_empty() {
        return Ok(Some(None));
    }
    match decode(alloc, bytes)? {
        Some(row) => Ok(Some(Some(row))),
        None => Ok(None),
    }
}

#[tactic(auto, unfolding(crate::specs::Reading::response_from))]
pub(crate) fn response(alloc: Global, bytes: &[u8]) -> Result<Option<Response>, AllocError>
    ensures { IfOk result (λ o. o ≡ response_from bytes.now) }
{
    let Some((flag, rest)) = bytes.split_first() else {
        return Ok(None);
    };
    let Some((hash, rest)) = read_flagged_hash(*flag, rest) else {
        return Ok(None);
    };
    let Some(right) = right_row(alloc, rest)? else {
        return Ok(None);
    };
    Ok(Some(Response { hash, right }))
}

#[tactic(auto, unfolding(crate::specs::Reading::delta_from))]
pub(crate) fn delta(bytes: &[u8]) -> Option<Delta>
    ensures { result ≡ delta_from bytes.now }
{
    let (add, rest) = match bytes {
        [0, rest @ ..] => (false, rest),
        [1, rest @ ..] => (true, rest),
        _ => return None,
    };
    let (amount, rest) = read_i64(rest)?;
    if rest.is_empty() {
        Some(Delta { add, amount })
    } else {
        None
    }
}

#[tactic(auto, unfolding(crate::specs::Reading::agg_from))]
pub(crate) fn agg(bytes: &[u8]) -> Option<Agg>
    ensures { result ≡ agg_from bytes.now }
{
    let (members, rest) = read_i64(bytes)?;
    let (total, rest) = read_i64(rest)?;
    if rest.is_empty() {
        Some(Agg { members, total })
    } else {
        None
    }
}

#[tactic(auto, unfolding(crate::specs::Reading::time_from))]
pub(crate) fn time(bytes: &[u8]) -> Option<u64>
    ensures { result ≡ time_from bytes.now }
{
    let (time, rest) = read_u64(bytes)?;
    if rest.is_empty() { Some(time) } else { None }
}

#[tactic(auto, unfolding(crate::specs::Reading::long_key_at))]
fn read_long_key(alloc: Global, bytes: &[u8]) -> Result<Option<(Key, &[u8])>, AllocError>
    ensures { IfOk result (λ o. option_map (λ x. (x.0, x.1.now)) o ≡ long_key_at bytes.now) }
{
    let Some((length, rest)) = read_u32(bytes) else {
        return Ok(None);
    };
    let Some((front, rest)) = read_bytes(length as usize, rest) else {
        return Ok(None);
    };
    let Some(key) = Key::of(alloc, front)? else {
        return Ok(None);
    };
    Ok(Some((key, rest)))
}

#[tactic(auto, unfolding(crate::specs::Reading::subscription_key_from))]
pub(crate) fn subscription_key(
    alloc: Global,
    bytes: &[u8],
) -> Result<Option<(Key, Key)>, AllocError>
    ensures { IfOk result (λ o. o ≡ subscription_key_from bytes.now) }
{
    let Some((foreign, rest)) = read_long_key(alloc, bytes)? else {
        return Ok(None);
    };
    let Some(left) = Key::of(alloc, rest)? else {
        return Ok(None);
    };
    Ok(Some((foreign, left)))
}

#[tactic(auto, unfolding(crate::specs::Reading::window_key_from))]
pub(crate) fn window_key(alloc: Global, bytes: &[u8]) -> Result<Option<(Key, u64)>, AllocError>
    ensures { IfOk result (λ o. o ≡ window_key_from bytes.now) }
{
    let Some((key, rest)) = read_long_key(alloc, bytes)? else {
        return Ok(None);
    };
    let Some((start, rest)) = read_u64(rest) else {
        return Ok(None);
    };
    if rest.is_empty() {
        Ok(Some((key, start)))
    } else {
        Ok(None)
    }
}
