//! Calls of a store with a cache, as values.
ghost use Rattle.std.specs.Prelude.{◌≡◌, IfOk, OnOk, option_map};
ghost use Rattle.ks_store.specs.Calls.{reply_to, replies_to, after_calls, store_after};
ghost use Rattle.ks_cache.specs.Cached.{map_of};
ghost use Rattle.ks_cache.specs.Calls.{cached_by, below_by, cached_by_all, below_by_all};

use crate::cached_store::CachedStore;
use ks_record::{Blob, Seq};
use ks_store::{KvStore, StoreCall, StoreReply};
use std::alloc::{AllocError, Global};

fn copy_value(alloc: Global, value: Option<&[u8]>) -> Result<Option<Blob>, AllocError>
    ensures { IfOk result (λ v. v ≡ option_map (λ b. b.now) value.entry) }
{
    match value {
        Some(value) => Ok(Some(Blob::from_slice(alloc, value)?)),
        None => Ok(None),
    }
}

fn run_call<S: KvStore>(
    alloc: Global,
    store: &mut CachedStore<S>,
    call: &StoreCall,
) -> Result<StoreReply, AllocError>
    ensures reply { IfOk result (λ r. r ≡ reply_to (map_of S.contents store.old) call.now) }
    ensures map { OnOk result (map_of S.contents store.new
        ≡ store_after (map_of S.contents store.old) call.now) }
    ensures cached { OnOk result (store.new.cached
        ≡ cached_by store.old.capacity store.old.cached call.now) }
    ensures below { OnOk result (S.contents store.new.inner
        ≡ below_by store.old.capacity store.old.cached (S.contents store.old.inner) call.now) }
    ensures capacity { store.new.capacity ≡ store.old.capacity }
{
    match call {
        StoreCall::Put(key, value) => {
            store.put(key.as_slice(), value.as_slice())?;
            Ok(StoreReply::Done)
        }
        StoreCall::Delete(key) => {
            store.delete(key.as_slice());
            Ok(StoreReply::Done)
        }
        StoreCall::Get(key) => {
            let value = copy_value(alloc, store.get(key.as_slice()))?;
            Ok(StoreReply::Found(value))
        }
        StoreCall::Prefix(front) => {
            let pairs = store.prefix(front.as_slice())?;
            Ok(StoreReply::Pairs(Seq::of(pairs)))
        }
    }
}

/// Makes calls of a store with a cache, one after another, with an answer to each: those of a finite map. Where none was refused memory
/// the cached list is what the puts and deletes leave of it, and the store below has what they wrote through.
pub fn run_cached<S: KvStore>(
    alloc: Global,
    store: &mut CachedStore<S>,
    calls: &[StoreCall],
) -> Result<Vec<StoreReply>, AllocError>
    ensures replies { IfOk result (λ v. v.items
        ≡ replies_to (map_of S.contents store.old) calls.now) }
    ensures map { OnOk result (map_of S.contents store.new
        ≡ after_calls (map_of S.contents store.old) calls.now) }
    ensures cached { OnOk result (store.new.cached
        ≡ cached_by_all store.old.capacity store.old.cached calls.now) }
    ensures below { OnOk result (S.contents store.new.inner
        ≡ below_by_all store.old.capacity store.old.cached (S.contents store.old.inner)
        calls.now) }
    ensures capacity { store.new.capacity ≡ store.old.capacity }
{
    let mut replies = Vec::new(alloc);
    let mut rest = calls;
    while let [call, more @ ..] = rest {
        let reply = run_call(alloc, store, call)?;
        replies.push(reply)?;
        rest = more;
    }
    Ok(replies)
}
