//! What tasks say to one another and keep, as bytes.
ghost use Rattle.std.specs.Prelude.{◌≡◌, ◌+◌, ◌++◌, ◌∷◌, [], IfOk, OnOk};
ghost use Rattle.ks_row.specs.Spelling.{int_bytes};
ghost use Rattle.ks_record.specs.Texts.{IsKey};
ghost use Rattle.ks_wire.specs.Spelling.{hash_flag, hash_or_nothing, version_of, part_or_nothing, subscriber_bytes, time_bytes, subscription_bytes, response_bytes, delta_bytes, agg_bytes, long_key, subscription_key, window_key, FitsHash, FitsSubscription, FitsSubscriber, FitsResponse, FitsDelta, FitsAgg, FitsKeys, FitsWindow};

use crate::values::{Agg, Delta, Response, Subscriber, Subscription};
use ks_record::{Blob, BlobBuilder, Key};
use std::alloc::{AllocError, Global};

const NO_HASH: u8 = 128;

fn push_flag(out: &mut BlobBuilder, hash: Option<u128>) -> Result<(), AllocError>
    ensures { OnOk result (out.new ≡ out.old ++ hash_flag hash ∷ []) }
{
    let flag = if hash.is_none() { NO_HASH } else { 0 };
    out.push(flag)?;
    Ok(())
}

fn push_hash(out: &mut BlobBuilder, hash: Option<u128>) -> Result<(), AllocError>
    ensures bytes { OnOk result (out.new ≡ out.old ++ hash_or_nothing hash) }
    ensures fits { FitsHash hash }
{
    if let Some(hash) = hash {
        out.extend_from_slice(&hash.to_be_bytes())?;
    }
    Ok(())
}

// The flag with the version.
fn push_version(
    out: &mut BlobBuilder,
    hash: Option<u128>,
    part: Option<u8>,
) -> Result<(), AllocError>
    ensures { OnOk result (out.new ≡ out.old ++ (hash_flag hash + version_of part) ∷ []) }
{
    let flag = if hash.is_none() { NO_HASH } else { 0 };
    let version = if part.is_none() { 0 } else { 1 };
    out.push(flag + version)?;
    Ok(())
}

fn push_part(out: &mut BlobBuilder, part: Option<u8>) -> Result<(), AllocError>
    ensures { OnOk result (out.new ≡ out.old ++ part_or_nothing part) }
{
    if let Some(part) = part {
        out.extend_from_slice(&(part as u32).to_be_bytes())?;
    }
    Ok(())
}

/// The bytes that spell the subscription.
#[tactic(auto, unfolding(crate::specs::Spelling::subscription_bytes))]
pub fn write_subscription(alloc: Global, subscription: &Subscription) -> Result<Blob, AllocError>
    ensures bytes { IfOk result (λ b. b ≡ subscription_bytes subscription.now) }
    ensures fits { OnOk result (FitsSubscription subscription.now) }
{
    let mut out = BlobBuilder::new(alloc);
    push_version(&mut out, subscription.hash(), subscription.part())?;
    out.push(subscription.instruction())?;
    push_hash(&mut out, subscription.hash())?;
    out.extend_from_slice(subscription.left().as_str().as_bytes())?;
    push_part(&mut out, subscription.part())?;
    out.into_blob()
}

/// The bytes that spell the response.
#[tactic(auto, unfolding(crate::specs::Spelling::response_bytes))]
pub fn write_response(alloc: Global, response: &Response) -> Result<Blob, AllocError>
    ensures bytes { IfOk result (λ b. b ≡ response_bytes response.now) }
    ensures fits { OnOk result (FitsResponse response.now) }
{
    let mut out = BlobBuilder::new(alloc);
    push_flag(&mut out, response.hash)?;
    push_hash(&mut out, response.hash)?;
    if let Some(row) = &response.right {
        out.extend_from_slice(row.as_bytes())?;
    }
    out.into_blob()
}

/// The bytes that spell the delta.
#[tactic(auto, unfolding(crate::specs::Spelling::delta_bytes))]
pub fn write_delta(alloc: Global, delta: &Delta) -> Result<Blob, AllocError>
    ensures bytes { IfOk result (λ b. b ≡ delta_bytes delta.now) }
    ensures fits { OnOk result (FitsDelta delta.now) }
{
    let mut out = BlobBuilder::new(alloc);
    out.push(if delta.add { 1 } else { 0 })?;
    out.extend_from_slice(&delta.amount.to_be_bytes())?;
    out.into_blob()
}

/// The bytes that spell the aggregate.
#[tactic(auto, unfolding(crate::specs::Spelling::agg_bytes))]
pub fn write_agg(alloc: Global, agg: &Agg) -> Result<Blob, AllocError>
    ensures bytes { IfOk result (λ b. b ≡ agg_bytes agg.now) }
    ensures fits { OnOk result (FitsAgg agg.now) }
{
    let mut out = BlobBuilder::new(alloc);
    out.extend_from_slice(&agg.members.to_be_bytes())?;
    out.extend_from_slice(&agg.total.to_be_bytes())?;
    out.into_blob()
}

/// The bytes that a subscription store keeps of a subscriber; they are read back where its partition is at most 63.
#[tactic(auto, unfolding(crate::specs::Spelling::subscriber_bytes))]
pub fn write_subscriber(alloc: Global, subscriber: Subscriber) -> Result<Blob, AllocError>
    ensures { IfOk result (λ b. b ≡ subscriber_bytes subscriber) }
{
    let mut out = BlobBuilder::new(alloc);
    out.extend_from_slice(&subscriber.hash.to_be_bytes())?;
    push_part(&mut out, subscriber.part)?;
    out.into_blob()
}

/// The bytes of a timestamp alone.
pub fn write_time(alloc: Global, time: u64) -> Result<Blob, AllocError>
    ensures { IfOk result (λ b. b ≡ time_bytes time) }
{
    Blob::from_slice(alloc, &time.to_be_bytes())
}

fn push_long_key(out: &mut BlobBuilder, key: &Key) -> Result<(), AllocError>
    ensures bytes { OnOk result (out.new ≡ out.old ++ long_key key.now) }
    ensures fits { OnOk result (IsKey key.now) }
{
    let bytes = key.as_str().as_bytes();
    out.extend_from_slice(&(bytes.len() as u32).to_be_bytes())?;
    out.extend_from_slice(bytes)?;
    Ok(())
}

/// Where the store of a foreign-key join keeps the hash of a left key at a foreign key.
#[tactic(auto, unfolding(crate::specs::Spelling::subscription_key))]
pub fn write_subscription_key(alloc: Global, foreign: &Key, left: &Key) -> Result<Blob, AllocError>
    ensures bytes { IfOk result (λ b. b ≡ subscription_key foreign.now left.now) }
    ensures fits { OnOk result (FitsKeys (foreign.now, left.now)) }
{
    let mut out = BlobBuilder::new(alloc);
    push_long_key(&mut out, foreign)?;
    out.extend_from_slice(left.as_str().as_bytes())?;
    out.into_blob()
}

/// Where a windowed count keeps the count of a key in the window that starts at `start`.
#[tactic(auto, unfolding(crate::specs::Spelling::window_key))]
pub fn write_window_key(alloc: Global, key: &Key, start: u64) -> Result<Blob, AllocError>
    ensures bytes { IfOk result (λ b. b ≡ window_key key.now start) }
    ensures fits { OnOk result (FitsWindow (key.now, start)) }
{
    let mut out = BlobBuilder::new(alloc);
    push_long_key(&mut out, key)?;
    out.extend_from_slice(&start.to_be_bytes())?;
    out.into_blob()
}
