//! Calls of a store as values, and what is answered to them.
ghost use Rattle.std.specs.Prelude.{◌≡◌, ◌≤◌, IfOk, OnOk, OnErr, ℕ, length, take, option_map};
ghost use Rattle.ks_store.specs.Calls.{reply_to, store_after, replies_to, after_calls};

use crate::store::KvStore;
use ks_record::{Blob, Seq};
use std::alloc::{AllocError, Global};

/// A call of a store.
#[derive(Drop)]
pub enum StoreCall {
    /// Sets the value of a key.
    Put(Blob, Blob),
    /// Takes a key away.
    Delete(Blob),
    /// Asks for the value of a key.
    Get(Blob),
    /// Asks for the pairs whose key begins so.
    Prefix(Blob),
}

/// What a store answers to a call.
#[derive(Drop)]
pub enum StoreReply {
    /// The call changes the store and has no answer.
    Done,
    /// The value of the key; none where the store has no such key.
    Found(Option<Blob>),
    /// The pairs whose key begins so, in order of bytes.
    Pairs(Seq<(Blob, Blob)>),
}

fn copy_value(alloc: Global, value: Option<&[u8]>) -> Result<Option<Blob>, AllocError>
    ensures { IfOk result (λ v. v ≡ option_map (λ b. b.now) value.entry) }
{
    match value {
        Some(value) => Ok(Some(Blob::from_slice(alloc, value)?)),
        None => Ok(None),
    }
}

fn run_call<S: KvStore>(
    alloc: Global,
    store: &mut S,
    call: &StoreCall,
) -> Result<StoreReply, AllocError>
    ensures reply { IfOk result (λ r. r ≡ reply_to (S.contents store.old) call.now) }
    ensures contents { OnOk result (S.contents store.new
        ≡ store_after (S.contents store.old) call.now) }
    ensures err { OnErr result (S.contents store.new ≡ S.contents store.old) }
{
    match call {
        StoreCall::Put(key, value) => {
            store.put(key.as_slice(), value.as_slice())?;
            Ok(StoreReply::Done)
        }
        StoreCall::Delete(key) => {
            store.delete(key.as_slice());
            Ok(StoreReply::Done)
        }
        StoreCall::Get(key) => {
            let value = copy_value(alloc, store.get(key.as_slice()))?;
            Ok(StoreReply::Found(value))
        }
        StoreCall::Prefix(front) => {
            let pairs = store.prefix(front.as_slice())?;
            Ok(StoreReply::Pairs(Seq::of(pairs)))
        }
    }
}

/// Makes calls of a store, one after another, with an answer to each: those of a finite map, whichever store it is. Want of memory is
/// the one error, after which the first of the calls were made.
pub fn run_calls<S: KvStore>(
    alloc: Global,
    store: &mut S,
    calls: &[StoreCall],
) -> Result<Vec<StoreReply>, AllocError>
    ensures replies { IfOk result (λ v. v.items ≡ replies_to (S.contents store.old) calls.now) }
    ensures contents { OnOk result (S.contents store.new
        ≡ after_calls (S.contents store.old) calls.now) }
    ensures err { OnErr result ((n : ℕ) × (n ≤ length calls.now)
        × (S.contents store.new ≡ after_calls (S.contents store.old) (take n calls.now))) }
{
    let mut replies = Vec::new(alloc);
    for call in calls {
        let reply = run_call(alloc, store, call)?;
        replies.push(reply)?;
    }
    Ok(replies)
}
