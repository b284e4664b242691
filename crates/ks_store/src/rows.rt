//! Pairs in a hash table, by their keys.
ghost use Rattle.std.specs.Prelude.{◌≡◌, ◌≤◌, ◌+◌, ◌++◌, ◌==◌, [], ℕ, List, IfOk, OnOk, OnErr, Some, None, cond, is_some, option_map, length};
ghost use Rattle.std.specs.List.{filter, starts_with};
ghost use Rattle.std.specs.Ordering.{eq_by_cmp};
ghost use Rattle.std.specs.FinMap.Entries.{find};
ghost use Rattle.ks_def_runs.specs.Bytes.{by_bytes};
ghost use Rattle.ks_def_runs.specs.FinMap as map;
ghost use Rattle.ks_def_runs.specs.Prefixes.{pairs_under};
ghost use Rattle.ks_store.specs.Hashing.{start_of};
ghost use Rattle.ks_store.specs.Rows.{short_rows, long_rows, row_store, with_found, rows_for};

use crate::hashing::KeyHashing;
use crate::short_key::{MAX_SHORT, ShortKey};
use ks_record::Blob;
use std::alloc::{AllocError, Global};
use std::collections::HashMap;
use std::marker::Model;

type Short = HashMap<ShortKey, Blob, KeyHashing>;

type Long = HashMap<Vec<u8>, Blob, KeyHashing>;

/// The rows of keys. A key of up to 23 bytes stands in the table itself, a longer one in memory of its own.
#[derive(Drop)]
pub struct Rows {
    short: Short,
    long: Long,
}

impl Model for Rows {
    ghost use Rattle.std.specs.Prelude.{◌≡◌, ◌++◌};
    ghost use Rattle.ks_store.specs.Hashing.{start_of};
    ghost use Rattle.ks_store.specs.Rows.{HashedRows, short_rows, long_rows, AreApart};

    ghost Value = { HashedRows };

    ghost view = { λ r. record {
      rows = short_rows r.short.entries ++ long_rows r.long.entries;
      start = start_of r.short;
    } };

    ghost invariant = { λ r. AreApart (short_rows r.short.entries) (long_rows r.long.entries)
        × (start_of r.long ≡ start_of r.short) };
}

impl Rows {
    /// No rows, whose keys are hashed so; takes no memory.
    pub fn new(alloc: Global, hashing: KeyHashing) -> Rows
        ensures rows { result.rows ≡ [] }
        ensures start { result.start ≡ hashing.begun.state }
    {
        Rows {
            short: HashMap::with_hasher(alloc, hashing),
            long: HashMap::with_hasher(alloc, hashing),
        }
    }

    /// How many rows there are.
    pub fn len(&self) -> usize
        ensures { result ≡ length self.now.rows }
    {
        self.short.len() + self.long.len()
    }
}

fn at_short<'a>(rows: &'a Short, key: &[u8]) -> Option<&'a Blob>
    requires { length key.now ≤ 23 }
    ensures { option_map (λ v. v.now) result
        ≡ find by_bytes key.now (short_rows rows.now.entries) }
{
    let key = ShortKey::of(key);
    rows.get(&key)
}

fn at_long<'a>(rows: &'a Long, key: &[u8]) -> Option<&'a Blob>
    ensures { option_map (λ v. v.now) result
        ≡ find by_bytes key.now (long_rows rows.now.entries) }
{
    rows.get(key)
}

fn blob_at<'a>(rows: &'a Rows, key: &[u8]) -> Option<&'a Blob>
    ensures { option_map (λ v. v.now) result ≡ find by_bytes key.now rows.now.rows }
{
    if key.len() <= MAX_SHORT {
        at_short(&rows.short, key)
    } else {
        at_long(&rows.long, key)
    }
}

/// The row of a key; none where it has none.
pub fn row_at<'a>(rows: &'a Rows, key: &[u8]) -> Option<&'a [u8]>
    ensures { option_map (λ v. v.now) result ≡ find by_bytes key.now rows.now.rows }
{
    match blob_at(rows, key) {
        Some(value) => Some(value.as_slice()),
        None => None,
    }
}

// Whether the key had a row.
fn put_short(rows: &mut Short, key: &[u8], value: Blob) -> Result<bool, AllocError>
    requires { length key.now ≤ 23 }
    ensures had { IfOk result (λ had. had
        ≡ is_some (find by_bytes key.now (short_rows rows.old.entries))) }
    ensures ok { OnOk result ((q : List ℕ) → find by_bytes q (short_rows rows.new.entries)
        ≡ cond (eq_by_cmp by_bytes q key.now) (Some value)
        (find by_bytes q (short_rows rows.old.entries))) }
    ensures len { OnOk result (length rows.new.entries
        ≡ length rows.old.entries
        + cond (is_some (find by_bytes key.now (short_rows rows.old.entries))) 0 1) }
    ensures err { OnErr result (rows.new.entries ≡ rows.old.entries) }
    ensures start { start_of rows.new ≡ start_of rows.old }
{
    let old = rows.insert(ShortKey::of(key), value)?;
    Ok(old.is_some())
}

// Whether the key had a row.
fn set_long(rows: &mut Long, key: Vec<u8>, value: Blob) -> Result<bool, AllocError>
    ensures had { IfOk result (λ had. had
        ≡ is_some (find by_bytes key.items (long_rows rows.old.entries))) }
    ensures ok { OnOk result ((q : List ℕ) → find by_bytes q (long_rows rows.new.entries)
        ≡ cond (eq_by_cmp by_bytes q key.items) (Some value)
        (find by_bytes q (long_rows rows.old.entries))) }
    ensures len { OnOk result (length rows.new.entries
        ≡ length rows.old.entries
        + cond (is_some (find by_bytes key.items (long_rows rows.old.entries))) 0 1) }
    ensures err { OnErr result (rows.new.entries ≡ rows.old.entries) }
    ensures start { start_of rows.new ≡ start_of rows.old }
{
    let old = rows.insert(key, value)?;
    Ok(old.is_some())
}

// Whether the key had a row; it is copied where it had none.
fn put_long(alloc: Global, rows: &mut Long, key: &[u8], value: Blob) -> Result<bool, AllocError>
    ensures had { IfOk result (λ had. had
        ≡ is_some (find by_bytes key.now (long_rows rows.old.entries))) }
    ensures ok { OnOk result ((q : List ℕ) → find by_bytes q (long_rows rows.new.entries)
        ≡ cond (eq_by_cmp by_bytes q key.now) (Some value)
        (find by_bytes q (long_rows rows.old.entries))) }
    ensures len { OnOk result (length rows.new.entries
        ≡ length rows.old.entries
        + cond (is_some (find by_bytes key.now (long_rows rows.old.entries))) 0 1) }
    ensures err { OnErr result (rows.new.entries ≡ rows.old.entries) }
    ensures start { start_of rows.new ≡ start_of rows.old }
{
    if let Some(place) = rows.get_mut(key) {
        *place = value;
        return Ok(true);
    }
    let copy = Vec::from_slice(alloc, key)?;
    set_long(rows, copy, value)
}

/// Puts a row, and tells whether the key had one. A long key is copied where it had none; after want of memory the table is as before.
pub fn put_row(alloc: Global, rows: &mut Rows, key: &[u8], value: Blob) -> Result<bool, AllocError>
    ensures had { IfOk result (λ had. had ≡ is_some (find by_bytes key.now rows.old.rows)) }
    ensures ok { OnOk result ((q : List ℕ) → find by_bytes q rows.new.rows
        ≡ cond (eq_by_cmp by_bytes q key.now) (Some value) (find by_bytes q rows.old.rows)) }
    ensures len { OnOk result (length rows.new.rows
        ≡ length rows.old.rows + cond (is_some (find by_bytes key.now rows.old.rows)) 0 1) }
    ensures err { OnErr result (rows.new.rows ≡ rows.old.rows) }
    ensures start { rows.new.start ≡ rows.old.start }
{
    if key.len() <= MAX_SHORT {
        put_short(&mut rows.short, key, value)
    } else {
        put_long(alloc, &mut rows.long, key, value)
    }
}

fn take_short(rows: &mut Short, key: &[u8])
    requires { length key.now ≤ 23 }
    ensures gone { (q : List ℕ) → find by_bytes q (short_rows rows.new.entries)
        ≡ cond (eq_by_cmp by_bytes q key.now) None
        (find by_bytes q (short_rows rows.old.entries)) }
    ensures len { length rows.new.entries
        + cond (is_some (find by_bytes key.now (short_rows rows.old.entries))) 1 0
        ≡ length rows.old.entries }
    ensures start { start_of rows.new ≡ start_of rows.old }
{
    let key = ShortKey::of(key);
    rows.remove(&key);
}

fn take_long(rows: &mut Long, key: &[u8])
    ensures gone { (q : List ℕ) → find by_bytes q (long_rows rows.new.entries)
        ≡ cond (eq_by_cmp by_bytes q key.now) None
        (find by_bytes q (long_rows rows.old.entries)) }
    ensures len { length rows.new.entries
        + cond (is_some (find by_bytes key.now (long_rows rows.old.entries))) 1 0
        ≡ length rows.old.entries }
    ensures start { start_of rows.new ≡ start_of rows.old }
{
    rows.remove(key);
}

/// Takes a key's row out, where there is one.
pub fn take_row(rows: &mut Rows, key: &[u8])
    ensures gone { (q : List ℕ) → find by_bytes q rows.new.rows
        ≡ cond (eq_by_cmp by_bytes q key.now) None (find by_bytes q rows.old.rows) }
    ensures len { length rows.new.rows + cond (is_some (find by_bytes key.now rows.old.rows)) 1 0
        ≡ length rows.old.rows }
    ensures start { rows.new.start ≡ rows.old.start }
{
    if key.len() <= MAX_SHORT {
        take_short(&mut rows.short, key);
    } else {
        take_long(&mut rows.long, key);
    }
}

// The rows of short keys that begin so.
fn short_under(alloc: Global, rows: &Short, front: &[u8]) -> Result<Vec<(Blob, Blob)>, AllocError>
    ensures { IfOk result (λ v. v.items ≡ filter (λ e. starts_with ◌==◌ e.0 front.now)
        (short_rows rows.now.entries)) }
{
    let mut found = Vec::new(alloc);
    for (key, value) in rows {
        if key.starts_with(front) {
            let key = key.to_blob(alloc)?;
            found.push((key, value.clone()?))?;
        }
    }
    Ok(found)
}

// The rows that were found, and those of long keys that begin so.
fn long_under(
    alloc: Global,
    rows: &Long,
    front: &[u8],
    found: Vec<(Blob, Blob)>,
) -> Result<Vec<(Blob, Blob)>, AllocError>
    ensures { IfOk result (λ v. v.items ≡ found.items
        ++ filter (λ e. starts_with ◌==◌ e.0 front.now) (long_rows rows.now.entries)) }
{
    let mut all = found;
    for (key, value) in rows {
        if key.as_slice().starts_with(front) {
            let key = Blob::from_slice(alloc, key.as_slice())?;
            all.push((key, value.clone()?))?;
        }
    }
    Ok(all)
}

/// The rows whose key begins so, in order of keys; looks at every row.
pub fn rows_under(alloc: Global, rows: &Rows, front: &[u8]) -> Result<Vec<(Blob, Blob)>, AllocError>
    requires { length rows.now.rows ≡ map.len (row_store rows.now.rows) }
    ensures { IfOk result (λ v. v.items ≡ pairs_under front.now (row_store rows.now.rows)) }
{
    let short = short_under(alloc, &rows.short, front)?;
    let mut found = long_under(alloc, &rows.long, front, short)?;
    found.sort_by(|a, b| a.0.as_slice().cmp(b.0.as_slice()))?;
    Ok(found)
}

fn push_row(rows: &Rows, key: &Blob, found: &mut Vec<(Blob, Blob)>) -> Result<(), AllocError>
    ensures { OnOk result (found.new.items
        ≡ found.old.items ++ with_found (find by_bytes key.now rows.now.rows) key.now []) }
{
    match blob_at(rows, key.as_slice()) {
        Some(value) => {
            let key = key.clone()?;
            let value = value.clone()?;
            found.push((key, value))?;
            Ok(())
        }
        None => Ok(()),
    }
}

/// The rows of keys, in their order; without those that have none.
pub fn rows_at(
    alloc: Global,
    rows: &Rows,
    keys: Vec<(Blob, Blob)>,
) -> Result<Vec<(Blob, Blob)>, AllocError>
    ensures { IfOk result (λ v. v.items ≡ rows_for rows.now.rows keys.items) }
{
    let mut found = Vec::new(alloc);
    for (key, _) in &keys {
        push_row(rows, key, &mut found)?;
    }
    Ok(found)
}
