//! The first two records of a partition that collide, in one pass.
ghost use Rattle.std.specs.Prelude.{◌≡◌, IfOk, IfSome, OnOk, option_map};
ghost use Rattle.ks_row.specs.Spelling.{FitsRow};
ghost use Rattle.ks_def_runs.specs.Bytes.{empty_store};
ghost use Rattle.ks_law_settled.specs.Collision.{row_by, pair_at, first_in};
ghost use Rattle.ks_settle_report.specs.Search.{spot as spot_at, entry_of as entry_in, is_other as is_other_row, meets_other as meets, with_entry};
ghost use Rattle.ks_settle_report.specs.Hashed.{row_hash, kind_as, pair_of};

use crate::pairs::{Collision, are_equal, earlier, row_bytes};
use ks_hash::Hash128;
use ks_record::{Blob, BlobBuilder, Rec};
use ks_settle::rows::StoredForm;
use ks_store::{KvStore, OrderedStore};
use std::alloc::{AllocError, Global};

// Where a key and a hash stand.
fn spot(alloc: Global, key: &[u8], hash: u128) -> Result<Blob, AllocError>
    ensures { IfOk result (λ b. b ≡ spot_at key.now hash) }
{
    let mut out = BlobBuilder::new(alloc);
    out.extend_from_slice(&hash.to_be_bytes())?;
    out.extend_from_slice(key)?;
    out.into_blob()
}

// Of a record with a key and a row: its spot, and the row's bytes.
fn entry_of<H: Hash128>(
    alloc: Global,
    shown: StoredForm,
    rec: &Rec,
) -> Result<Option<(Blob, Blob)>, AllocError>
    ensures entry { IfOk result (λ o. o ≡ entry_in (row_hash H.hash_of) (kind_as shown) rec.now) }
    ensures spelled { OnOk result (IfSome (row_by (kind_as shown) rec.now.value) FitsRow) }
{
    let Some(bytes) = row_bytes(alloc, shown, rec)? else {
        return Ok(None);
    };
    let Some(key) = rec.key() else {
        return Ok(None);
    };
    let at = spot(alloc, key, H::hash(bytes.as_slice()))?;
    Ok(Some((at, bytes)))
}

fn is_other(kept: Option<&[u8]>, row: &[u8]) -> bool
    ensures { result ≡ is_other_row (option_map (λ k. k.now) kept.entry) row.now }
{
    match kept {
        Some(kept) => !are_equal(kept, row),
        None => false,
    }
}

// Whether another row is kept where this one stands; from now on it is kept there.
fn meets_other(rows: &mut OrderedStore, entry: &Option<(Blob, Blob)>) -> Result<bool, AllocError>
    ensures other { IfOk result (λ b. b ≡ meets rows.old.store entry.now) }
    ensures kept { OnOk result (rows.new.store ≡ with_entry rows.old.store entry.now) }
{
    let Some((at, row)) = entry else {
        return Ok(false);
    };
    let other = is_other(rows.get(at.as_slice()), row.as_slice());
    rows.put(at.as_slice(), row.as_slice())?;
    Ok(other)
}

fn copy_key(alloc: Global, rec: &Rec) -> Result<Option<Blob>, AllocError>
    ensures { IfOk result (λ k. k ≡ rec.now.key) }
{
    match rec.key() {
        Some(key) => Ok(Some(Blob::from_slice(alloc, key)?)),
        None => Ok(None),
    }
}

fn collision(
    alloc: Global,
    record: &(u64, Rec),
    first: Option<u64>,
) -> Result<Option<Collision>, AllocError>
    ensures { IfOk result (λ o. option_map pair_of o ≡ pair_at record.now first) }
{
    let Some(first) = first else {
        return Ok(None);
    };
    Ok(Some(Collision {
        key: copy_key(alloc, &record.1)?,
        first,
        second: record.0,
    }))
}

// The first two of some records that collide, by a store that keeps nothing yet.
fn search_with<H: Hash128>(
    alloc: Global,
    shown: StoredForm,
    recs: &[(u64, Rec)],
    rows: &mut OrderedStore,
) -> Result<Option<Collision>, AllocError>
    requires { rows.old.store ≡ empty_store }
    ensures { IfOk result (λ o. option_map pair_of o
        ≡ first_in (row_hash H.hash_of) (kind_as shown) recs.now) }
{
    for i in 0..recs.len() {
        let entry = entry_of::<H>(alloc, shown, &recs[i].1)?;
        if meets_other(rows, &entry)? {
            let first = earlier::<H>(alloc, shown, &recs[..i], &recs[i].1)?;
            return collision(alloc, &recs[i], first);
        }
    }
    Ok(None)
}

/// The first two of a partition's records, in order of offsets, that collide: by the greater, then by the lesser offset. Each record
/// is compared with one row. `Err` only where memory ran out.
pub fn first_collision<H: Hash128>(
    alloc: Global,
    shown: StoredForm,
    recs: &[(u64, Rec)],
) -> Result<Option<Collision>, AllocError>
    ensures { IfOk result (λ o. option_map pair_of o
        ≡ first_in (row_hash H.hash_of) (kind_as shown) recs.now) }
{
    let mut rows = OrderedStore::new(alloc, 0);
    let found = search_with::<H>(alloc, shown, recs, &mut rows);
    drop(rows);
    found
}
