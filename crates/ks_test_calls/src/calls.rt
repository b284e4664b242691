//! Calls of processors and stores, one after another, each with its answer as bytes. Rows are written out as their bytes, and none where
//! there are no bytes.
use crate::caches::new_cached;
use crate::given::{Given, new_given};
use crate::joins::{join_after, respond_to, subscribe};
use crate::replies::{expect_text, push_number};
use crate::stores::{change_right, count, get, list, push_pairs, restore_one, take_subscription};
use crate::tables::{COUNTED, FORMS, LEFT, NAMED, RIGHT, STORED};
use ks_expr::JoinKind;
use ks_hash::Murmur3;
use ks_store::{KvStore, OrderedStore, PlainStore};
use std::alloc::{AllocError, Global};
use std::process::Abort;

/// Where the foreign key of a left row comes from.
#[derive(Clone, Copy)]
pub enum Form {
    /// Its field r.
    Field,
    /// Its key.
    Whole,
    /// What stands in its key before the first `/`.
    Before,
}

/// A key whose row changes.
#[derive(Clone, Copy)]
pub struct Changed {
    pub key: &'static str,
    pub old: &'static [u8],
    pub new: &'static [u8],
}

/// What a left task asks of a foreign key.
#[derive(Clone, Copy)]
pub struct Asked {
    pub hash: Option<u128>,
    pub instruction: u8,
    pub left: &'static str,
    pub part: Option<u8>,
}

/// A call. A join's projection is its left field n; the right key is c1, the key of what is counted k, in windows of 10 with a grace of 5.
/// An answer to a partition that was named ends with `to` and its number.
#[derive(Clone, Copy)]
pub enum Call {
    /// An inner join of a left row that changes and of a right row that stays.
    JoinAfter {
        left: Changed,
        right: Changed,
    },
    /// Of a left task whose partition is named, where it is.
    Subscriptions {
        fk: Form,
        part: Option<u8>,
        left: Changed,
    },
    Respond {
        kind: JoinKind,
        left: &'static [u8],
        hash: Option<u128>,
        right: &'static [u8],
    },
    OnSubscription {
        asked: Asked,
        right: &'static [u8],
    },
    OnRight {
        right: Changed,
    },
    Count {
        t: u64,
    },
    /// Restores a record with this key and value.
    Restore {
        key: Option<&'static [u8]>,
        value: Option<&'static [u8]>,
    },
    Get {
        key: &'static [u8],
    },
    /// The pairs under a prefix, each as `key=value `.
    Prefix {
        front: &'static [u8],
    },
    Length,
    /// One list of calls: puts a pair, gets it, asks for the pairs under a prefix, of which the number is told, deletes the pair, gets it.
    List {
        key: &'static [u8],
        value: &'static [u8],
        front: &'static [u8],
    },
}

const ALL: &[&[(Call, &[u8])]] = &[LEFT, FORMS, RIGHT, NAMED, COUNTED, STORED];

fn push_stored<R: Abort, S: KvStore>(
    rt: &R,
    alloc: Global,
    given: &Given,
    store: &mut S,
    call: &Call,
    text: &mut Vec<u8>,
) -> Result<(), AllocError> {
    match *call {
        Call::Count { t } => count(alloc, given, store, t, text),
        Call::Restore { key, value } => restore_one(alloc, store, key, value),
        Call::Get { key } => get(store, key, text),
        Call::Prefix { front } => push_pairs(store, front, text),
        Call::Length => push_number(alloc, store.len() as u64, b"", text),
        Call::List { key, value, front } => list(rt, alloc, store, key, value, front, text),
        _ => Ok(()),
    }
}

fn push_answer<R: Abort, S: KvStore>(
    rt: &R,
    alloc: Global,
    given: &Given,
    store: &mut S,
    call: &Call,
    text: &mut Vec<u8>,
) -> Result<(), AllocError> {
    match *call {
        Call::JoinAfter { left, right } => join_after(rt, alloc, given, left, right, text),
        Call::Subscriptions { fk, part, left } => {
            subscribe::<Murmur3, R>(rt, alloc, fk, part, left, text)
        }
        Call::Respond {
            kind,
            left,
            hash,
            right,
        } => respond_to::<Murmur3, R>(rt, alloc, given, kind, left, (hash, right), text),
        Call::OnSubscription { asked, right } => {
            take_subscription(rt, alloc, given, store, asked, right, text)
        }
        Call::OnRight { right } => change_right(rt, alloc, store, right, text),
        _ => push_stored(rt, alloc, given, store, call, text),
    }
}

fn run_all<R: Abort, S: KvStore + Drop>(
    rt: &R,
    alloc: Global,
    given: &Given,
    mut store: S,
    calls: &[(Call, &[u8])],
) {
    let mut text = Vec::new(alloc);
    for (call, expected) in calls {
        text.clear();
        push_answer(rt, alloc, given, &mut store, call, &mut text).expect(rt, "memory");
        expect_text(rt, &text, expected);
    }
}

fn run_on_each<R: Abort>(rt: &R, alloc: Global, given: &Given, calls: &[(Call, &[u8])]) {
    run_all(rt, alloc, given, PlainStore::new(alloc), calls);
    run_all(rt, alloc, given, OrderedStore::new(alloc, 1), calls);
    run_all(rt, alloc, given, new_cached(rt, alloc, 1), calls);
}

#[test]
fn calls_and_answers(rt: HostRuntime) {
    let given = new_given(&rt, rt.alloc());
    for calls in ALL {
        run_on_each(&rt, rt.alloc(), &given, calls);
    }
    drop(given);
}
