//! Reading, with what it has to do with writing: what is read is spelled so, and what is spelled so is read.
ghost use Rattle.std.specs.Prelude.{◌≡◌, ◌<◌, ◌^◌, ℕ, List, IfOk, IfSome, Some};
ghost use Rattle.ks_row.specs.Codecs.{IsCodec};
ghost use Rattle.ks_wire.specs.Values.{SubscriptionValue};
ghost use Rattle.ks_wire.specs.declared.values.Response.{Response as ResponseValue};
ghost use Rattle.ks_wire.specs.declared.values.Delta.{Delta as DeltaValue};
ghost use Rattle.ks_wire.specs.declared.values.Agg.{Agg as AggValue};
ghost use Rattle.ks_wire.specs.declared.values.Subscriber.{Subscriber as SubscriberValue};
ghost use Rattle.ks_wire.specs.Spelling.{subscription_bytes, response_bytes, delta_bytes, agg_bytes, subscriber_bytes, time_bytes, subscription_key, window_key, FitsSubscription, FitsResponse, FitsDelta, FitsAgg, FitsSubscriber, FitsKeys, FitsWindow};
ghost use Rattle.ks_wire.specs.Reading.{subscription_from, response_from, delta_from, agg_from, subscriber_from, time_from, subscription_key_from, window_key_from};

use crate::reading;
use crate::values::{Agg, Delta, Response, Subscriber, Subscription};
use ks_record::Key;
use std::alloc::{AllocError, Global};

/// The subscription that the bytes spell, all of them; none where they spell none.
pub fn read_subscription(alloc: Global, bytes: &[u8]) -> Result<Option<Subscription>, AllocError>
    ensures found { IfOk result (λ o. IfSome o
        (λ v. FitsSubscription v × (bytes.now ≡ subscription_bytes v))) }
    ensures only { (v : SubscriptionValue) → FitsSubscription v → bytes.now ≡ subscription_bytes v
        → IfOk result (λ o. o ≡ Some v) }
    ensures exact { IfOk result (λ o. o ≡ subscription_from bytes.now) }
{
    reading::subscription(alloc, bytes)
}

/// The response that the bytes spell, all of them; none where they spell none.
pub fn read_response(alloc: Global, bytes: &[u8]) -> Result<Option<Response>, AllocError>
    ensures found { IfOk result (λ o. IfSome o
        (λ v. FitsResponse v × (bytes.now ≡ response_bytes v))) }
    ensures only { (v : ResponseValue) → FitsResponse v → bytes.now ≡ response_bytes v
        → IfOk result (λ o. o ≡ Some v) }
    ensures exact { IfOk result (λ o. o ≡ response_from bytes.now) }
{
    reading::response(alloc, bytes)
}

/// The delta that the bytes spell, all of them; none where they spell none. Takes no memory.
pub fn read_delta(bytes: &[u8]) -> Option<Delta>
    ensures found { IfSome result (λ v. FitsDelta v × (bytes.now ≡ delta_bytes v)) }
    ensures only { (v : DeltaValue) → FitsDelta v → bytes.now ≡ delta_bytes v → result ≡ Some v }
    ensures exact { result ≡ delta_from bytes.now }
{
    reading::delta(bytes)
}

/// The aggregate that the bytes spell, all of them; none where they spell none. Takes no memory.
pub fn read_agg(bytes: &[u8]) -> Option<Agg>
    ensures found { IfSome result (λ v. FitsAgg v × (bytes.now ≡ agg_bytes v)) }
    ensures only { (v : AggValue) → FitsAgg v → bytes.now ≡ agg_bytes v → result ≡ Some v }
    ensures exact { result ≡ agg_from bytes.now }
{
    reading::agg(bytes)
}

/// What the bytes, all of them, keep of a subscriber; none where they spell none. Takes no memory.
pub fn read_subscriber(bytes: &[u8]) -> Option<Subscriber>
    ensures found { IfSome result (λ v. FitsSubscriber v × (bytes.now ≡ subscriber_bytes v)) }
    ensures only { (v : SubscriberValue) → FitsSubscriber v → bytes.now ≡ subscriber_bytes v
        → result ≡ Some v }
    ensures exact { result ≡ subscriber_from bytes.now }
{
    reading::subscriber(bytes)
}

/// The timestamp that the bytes spell, all of them; none where there are not eight. Takes no memory.
pub fn read_time(bytes: &[u8]) -> Option<u64>
    ensures found { IfSome result (λ v. (v < 2 ^ 64) × (bytes.now ≡ time_bytes v)) }
    ensures only { (v : ℕ) → v < 2 ^ 64 → bytes.now ≡ time_bytes v → result ≡ Some v }
    ensures exact { result ≡ time_from bytes.now }
{
    reading::time(bytes)
}

/// The foreign key and the left key that the bytes spell, all of them; none where they spell none.
pub fn read_subscription_key(alloc: Global, bytes: &[u8]) -> Result<Option<(Key, Key)>, AllocError>
    ensures found { IfOk result (λ o. IfSome o
        (λ v. FitsKeys v × (bytes.now ≡ subscription_key v.0 v.1))) }
    ensures only { (v : List ℕ × List ℕ) → FitsKeys v → bytes.now ≡ subscription_key v.0 v.1
        → IfOk result (λ o. o ≡ Some v) }
    ensures exact { IfOk result (λ o. o ≡ subscription_key_from bytes.now) }
{
    reading::subscription_key(alloc, bytes)
}

/// The key and the start of the window that the bytes spell, all of them; none where they spell none.
pub fn read_window_key(alloc: Global, bytes: &[u8]) -> Result<Option<(Key, u64)>, AllocError>
    ensures found { IfOk result (λ o. IfSome o
        (λ v. FitsWindow v × (bytes.now ≡ window_key v.0 v.1))) }
    ensures only { (v : List ℕ × ℕ) → FitsWindow v → bytes.now ≡ window_key v.0 v.1
        → IfOk result (λ o. o ≡ Some v) }
    ensures exact { IfOk result (λ o. o ≡ window_key_from bytes.now) }
{
    reading::window_key(alloc, bytes)
}

/// A law: of each kind, spelling and reading undo one another, over all values and all bytes.
pub fn reading_undoes_writing()
    ensures subscription { IsCodec subscription_from subscription_bytes FitsSubscription }
    ensures response { IsCodec response_from response_bytes FitsResponse }
    ensures delta { IsCodec delta_from delta_bytes FitsDelta }
    ensures agg { IsCodec agg_from agg_bytes FitsAgg }
    ensures subscriber { IsCodec subscriber_from subscriber_bytes FitsSubscriber }
    ensures time { IsCodec time_from time_bytes (λ t. t < 2 ^ 64) }
    ensures subscription_keys { IsCodec subscription_key_from (λ p. subscription_key p.0 p.1)
        FitsKeys }
    ensures window_keys { IsCodec window_key_from (λ p. window_key p.0 p.1) FitsWindow }
{}
