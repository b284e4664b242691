//! What an item changes in the store of a windowed count.
ghost use Rattle.std.specs.Prelude.{◌≡◌, ◌≤◌, ◌++◌, ◌∷◌, [], Some, None, IfOk, OnOk, nat_eq};
ghost use Rattle.ks_def_runs.specs.FinMap as fin;
ghost use Rattle.ks_wire.specs.Spelling.{window_key, time_key, time_bytes};
ghost use Rattle.ks_query.specs.Grace.{is_open};
ghost use Rattle.ks_query.specs.Aggregates.{stream_add};
ghost use Rattle.ks_def_tasks.specs.Messages.{same_option};
ghost use Rattle.ks_def_tasks.specs.Windowed.{greater};
ghost use Rattle.ks_def_lookups.specs.Windows.{time_in, next_bytes, kept_rec, next_rec, with_next, counted};
ghost use Rattle.ks_plan.specs.Shape.{shape};

use crate::windows::starts;
use ks_plan::Window;
use ks_record::{Blob, Key, RecordList, RecordRef};
use ks_store::KvStore;
use ks_wire::{Agg, read_agg, read_time, write_agg, write_window_key};
use std::alloc::{AllocError, Global};

// Where the store keeps the greatest timestamp.
pub(crate) const TIME_KEY: [u8; 1] = [0x54];

pub(crate) fn time_of<S: KvStore>(store: &S) -> Option<u64>
    ensures { result ≡ time_in (S.contents store.now) }
{
    match store.get(&TIME_KEY) {
        Some(bytes) => read_time(bytes),
        None => None,
    }
}

pub(crate) fn later_of(before: Option<u64>, t: u64) -> u64
    ensures { result ≡ greater before t }
{
    match before {
        Some(greatest) => greatest.max(t),
        None => t,
    }
}

pub(crate) fn is_kept(before: Option<u64>, now: u64) -> bool
    ensures { result ≡ same_option nat_eq before (Some now) }
{
    match before {
        Some(greatest) => greatest == now,
        None => false,
    }
}

pub(crate) fn is_taken(window: &Window, now: u64, start: u64) -> bool
    ensures { result ≡ is_open (shape window.now) now start }
{
    u128::from(now) < u128::from(start) + u128::from(window.size) + u128::from(window.grace)
}

fn one_more(old: Option<Agg>) -> Agg
    ensures { result ≡ stream_add None old [] }
{
    let agg = old.unwrap_or(Agg {
        members: 0,
        total: 0,
    });
    Agg {
        members: agg.members.wrapping_add(1),
        total: agg.total.wrapping_add(0),
    }
}

// Adds the changelog record of a value.
pub(crate) fn push_rec(
    recs: &mut RecordList,
    t: u64,
    key: &[u8],
    value: &[u8],
) -> Result<(), AllocError>
    ensures { OnOk result (recs.new ≡ recs.old ++ kept_rec t key.now value.now ∷ []) }
{
    recs.push(RecordRef {
        key: Some(key),
        value: Some(value),
        ts: t,
    })
}

// The count of a key's window, one higher.
pub(crate) fn next_count<S: KvStore>(
    alloc: Global,
    store: &S,
    place: &[u8],
) -> Result<Blob, AllocError>
    ensures { IfOk result (λ b. b ≡ next_bytes (S.contents store.now) place.now) }
{
    let old = match store.get(place) {
        Some(bytes) => read_agg(bytes),
        None => None,
    };
    write_agg(alloc, &one_more(old))
}

// Sets a value and tells the changelog.
fn keep<S: KvStore>(
    store: &mut S,
    recs: &mut RecordList,
    t: u64,
    key: &[u8],
    value: &[u8],
) -> Result<(), AllocError>
    ensures store { OnOk result (S.contents store.new
        ≡ fin.insert (S.contents store.old) key.now value.now) }
    ensures recs { OnOk result (recs.new ≡ recs.old ++ kept_rec t key.now value.now
        ∷ []) }
{
    store.put(key, value)?;
    push_rec(recs, t, key, value)
}

fn keep_greatest<S: KvStore>(
    store: &mut S,
    recs: &mut RecordList,
    t: u64,
    now: u64,
) -> Result<(), AllocError>
    ensures store { OnOk result (S.contents store.new
        ≡ fin.insert (S.contents store.old) time_key (time_bytes now)) }
    ensures recs { OnOk result (recs.new ≡ recs.old
        ++ kept_rec t time_key (time_bytes now) ∷ []) }
{
    keep(store, recs, t, &TIME_KEY, &now.to_be_bytes())
}

fn count_window<S: KvStore>(
    alloc: Global,
    store: &mut S,
    recs: &mut RecordList,
    t: u64,
    key: &Key,
    start: u64,
) -> Result<(), AllocError>
    ensures store { OnOk result (S.contents store.new
        ≡ with_next (S.contents store.old) (window_key key.now start)) }
    ensures recs { OnOk result (recs.new ≡ recs.old
        ++ next_rec t (S.contents store.old) (window_key key.now start) ∷ []) }
{
    let place = write_window_key(alloc, key, start)?;
    let value = next_count(alloc, store, place.as_slice())?;
    keep(store, recs, t, place.as_slice(), value.as_slice())
}

/// Takes an item with a key and a timestamp: how many of its windows were over and dropped it, and the changelog records, the
/// greatest timestamp first where it changed, then the windows that count it, rising. After want of memory the store may hold a
/// part of this.
pub fn apply<S: KvStore>(
    alloc: Global,
    store: &mut S,
    key: &Key,
    t: u64,
    window: &Window,
) -> Result<(u64, RecordList), AllocError>
    requires some { 1 ≤ window.now.advance }
    requires most { window.now.advance ≤ window.now.size }
    ensures { IfOk result (λ r. record {
      store = S.contents store.new;
      late = r.0;
      recs = r.1;
    } ≡ counted (shape window.now) (S.contents store.old) key.now t) }
{
    let before = time_of(store);
    let now = later_of(before, t);
    let mut recs = RecordList::new(alloc);
    if !is_kept(before, now) {
        keep_greatest(store, &mut recs, t, now)?;
    }
    let all = starts(alloc, t, window.size, window.advance)?;
    let mut late = 0;
    for start in &all {
        if is_taken(window, now, *start) {
            count_window(alloc, store, &mut recs, t, key, *start)?;
        } else {
            late += 1;
        }
    }
    Ok((late, recs))
}
