//! What an item would change in the store of a windowed count, read and not written.
ghost use Rattle.std.specs.Prelude.{◌≡◌, ◌≤◌, ◌++◌, ◌∷◌, [], IfOk, OnOk};
ghost use Rattle.ks_wire.specs.Spelling.{window_key};
ghost use Rattle.ks_def_lookups.specs.Windows.{time_rec, next_rec, counted};
ghost use Rattle.ks_plan.specs.Shape.{shape};

use crate::counting::{TIME_KEY, is_kept, is_taken, later_of, next_count, push_rec, time_of};
use crate::windows::starts;
use ks_plan::Window;
use ks_record::{Key, RecordList};
use ks_store::KvStore;
use ks_wire::write_window_key;
use std::alloc::{AllocError, Global};

// The changelog record of a window's next count.
fn push_count<S: KvStore>(
    alloc: Global,
    store: &S,
    recs: &mut RecordList,
    t: u64,
    key: &Key,
    start: u64,
) -> Result<(), AllocError>
    ensures { OnOk result (recs.new ≡ recs.old
        ++ next_rec t (S.contents store.now) (window_key key.now start) ∷ []) }
{
    let place = write_window_key(alloc, key, start)?;
    let value = next_count(alloc, store, place.as_slice())?;
    push_rec(recs, t, place.as_slice(), value.as_slice())
}

// The changelog record of the greatest timestamp, where it changes.
fn time_recs(alloc: Global, before: Option<u64>, t: u64, now: u64) -> Result<RecordList, AllocError>
    ensures { IfOk result (λ v. v ≡ time_rec before t now) }
{
    let mut recs = RecordList::new(alloc);
    if is_kept(before, now) {
        return Ok(recs);
    }
    push_rec(&mut recs, t, &TIME_KEY, &now.to_be_bytes())?;
    Ok(recs)
}

/// What `apply` answers of an item with a key and a timestamp, with the store left as it is: how many of its windows are over and drop
/// it, and the changelog records, the greatest timestamp first where it changes, then the windows that count it, rising.
pub fn count<S: KvStore>(
    alloc: Global,
    store: &S,
    key: &Key,
    t: u64,
    window: &Window,
) -> Result<(u64, RecordList), AllocError>
    requires some { 1 ≤ window.now.advance }
    requires most { window.now.advance ≤ window.now.size }
    ensures late { IfOk result (λ r. r.0 ≡ (counted (shape window.now) (S.contents store.now)
        key.now t).late) }
    ensures recs { IfOk result (λ r. r.1
        ≡ (counted (shape window.now) (S.contents store.now) key.now t).recs) }
{
    // The key is one: no two windows of it have one place in the store.
    let _text = key.as_str();
    let before = time_of(store);
    let now = later_of(before, t);
    let mut recs = time_recs(alloc, before, t, now)?;
    let all = starts(alloc, t, window.size, window.advance)?;
    let mut late = 0;
    for start in &all {
        if is_taken(window, now, *start) {
            push_count(alloc, store, &mut recs, t, key, *start)?;
        } else {
            late += 1;
        }
    }
    Ok((late, recs))
}
