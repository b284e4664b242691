//! A store with a cache, call by call.
ghost use Rattle.std.specs.Prelude.{◌≤◌};

use crate::given::blob;
use crate::replies::{expect_text, push_number, push_replies};
use crate::stores::{push_pairs, put};
use ks_cache::{CachedStore, run_cached};
use ks_store::{KvStore, OrderedStore, StoreCall};
use std::alloc::{AllocError, Global};
use std::process::Abort;

/// A call of a store with a cache.
#[derive(Clone, Copy)]
enum Step {
    Put(&'static [u8], &'static [u8]),
    Delete(&'static [u8]),
    Get(&'static [u8]),
    Flush,
}

/// Calls of a store that holds two pairs back, each with its reply, how many pairs are held back of how many that there are, and what stands in
/// the store below: of three keys the one that was written longest ago, where a deletion finds it; a flush writes the others.
const STEPS: &[(Step, &str)] = &[
    (Step::Put(b"a", b"1"), "done 1 of 1, below "),
    (Step::Put(b"b", b"1"), "done 2 of 2, below "),
    (Step::Put(b"a", b"2"), "done 2 of 2, below "),
    (Step::Put(b"c", b"1"), "done 2 of 3, below b=1 "),
    (Step::Get(b"a"), "2 2 of 3, below b=1 "),
    (Step::Delete(b"b"), "done 2 of 2, below "),
    (Step::Flush, "0 of 2, below a=2 c=1 "),
];

/// An empty store that holds back so many pairs.
pub fn new_cached<R: Abort>(rt: &R, alloc: Global, capacity: u32) -> CachedStore<OrderedStore>
    requires { 1 ≤ capacity }
{
    match CachedStore::new(alloc, OrderedStore::new(alloc, 1), capacity) {
        Ok(store) => store,
        Err(_) => rt.abort(),
    }
}

fn make_call<R: Abort>(
    rt: &R,
    alloc: Global,
    store: &mut CachedStore<OrderedStore>,
    call: StoreCall,
    text: &mut Vec<u8>,
) -> Result<(), AllocError> {
    let replies = run_cached(alloc, store, &[call]).expect(rt, "memory");
    push_replies(alloc, &replies, text)
}

fn take_step<R: Abort>(
    rt: &R,
    alloc: Global,
    store: &mut CachedStore<OrderedStore>,
    step: &Step,
    text: &mut Vec<u8>,
) -> Result<(), AllocError> {
    let call = match *step {
        Step::Put(key, value) => put(rt, alloc, key, value),
        Step::Delete(key) => StoreCall::Delete(blob(rt, alloc, key)),
        Step::Get(key) => StoreCall::Get(blob(rt, alloc, key)),
        Step::Flush => return store.flush(),
    };
    make_call(rt, alloc, store, call, text)
}

// What is held back of what there is, and what stands below.
fn push_held(
    alloc: Global,
    text: &mut Vec<u8>,
    store: &CachedStore<OrderedStore>,
) -> Result<(), AllocError> {
    push_number(alloc, store.cached() as u64, b" of ", text)?;
    push_number(alloc, store.len() as u64, b", below ", text)?;
    push_pairs(store.inner(), b"", text)
}

fn take_steps<R: Abort>(rt: &R, alloc: Global, store: &mut CachedStore<OrderedStore>) {
    let mut text = Vec::new(alloc);
    for (step, expected) in STEPS {
        text.clear();
        take_step(rt, alloc, store, step, &mut text).expect(rt, "memory");
        push_held(alloc, &mut text, store).expect(rt, "memory");
        expect_text(rt, &text, expected.as_bytes());
    }
}

#[test]
fn the_oldest_write_goes_through(rt: HostRuntime) {
    let mut store = new_cached(&rt, rt.alloc(), 2);
    take_steps(&rt, rt.alloc(), &mut store);
    drop(store);
}
