//! Records of a changelog that wait beside a table, and what both are together.
ghost use Rattle.std.specs.Prelude.{◌≡◌, ◌+◌, ◌++◌, ◌≤◌, IfOk, OnOk, OnErr, Some, [], not, option_map, option_copied, cond};
ghost use Rattle.ks_def_runs.specs.FinMap as map;
ghost use Rattle.ks_history.specs.Machine.{applied, latest_from};
ghost use Rattle.ks_record.specs.Bytes.{IsBytes};
ghost use Rattle.ks_record.specs.Records.{record_seen};
ghost use Rattle.ks_store.specs.Restored.{records_of};
ghost use Rattle.ks_restoring.specs.Waiting.{has_key, without, IsOfBytes, AreOfBytes};

use ks_record::{Rec, RecordRef, equal_bytes};
use ks_store::{KvStore, OrderedStore};
use std::alloc::{AllocError, Global};

// Puts the value of a key, or deletes it where there is none.
fn write_value<S: KvStore>(
    store: &mut S,
    key: &[u8],
    value: Option<&[u8]>,
) -> Result<(), AllocError>
    ensures ok { OnOk result (S.contents store.new
        ≡ applied (S.contents store.old) (Some key.now) (option_copied value.entry)) }
    ensures err { OnErr result (S.contents store.new ≡ S.contents store.old) }
{
    match value {
        Some(value) => store.put(key, value),
        None => {
            store.delete(key);
            Ok(())
        }
    }
}

fn write_record<S: KvStore>(store: &mut S, rec: RecordRef<'_>) -> Result<(), AllocError>
    ensures ok { OnOk result (S.contents store.new
        ≡ applied (S.contents store.old) (record_seen rec.entry).key
        (record_seen rec.entry).value) }
    ensures err { OnErr result (S.contents store.new ≡ S.contents store.old) }
{
    match rec.key {
        Some(key) => write_value(store, key, rec.value),
        None => Ok(()),
    }
}

/// Writes records into a store, one after the other; after want of memory the first of them are written. Whatever came of it, writing
/// all of them once more leaves what they leave.
pub fn write_records<S: KvStore>(store: &mut S, records: &[(u64, Rec)]) -> Result<(), AllocError>
    ensures ok { OnOk result (S.contents store.new
        ≡ latest_from (S.contents store.old) (records_of records.now)) }
    ensures same { latest_from (S.contents store.new) (records_of records.now)
        ≡ latest_from (S.contents store.old) (records_of records.now) }
{
    for (_, rec) in records {
        write_record(store, rec.as_ref())?;
    }
    Ok(())
}

/// Writes the records that wait into their table, and lets them go. After want of memory all of them wait as before, and what both are
/// together is the same.
pub fn write_waiting(
    alloc: Global,
    table: &mut OrderedStore,
    records: &mut Vec<(u64, Rec)>,
) -> Result<(), AllocError>
    ensures none { OnOk result (records.new.items ≡ []) }
    ensures same { latest_from table.new.store (records_of records.new.items)
        ≡ latest_from table.old.store (records_of records.old.items) }
{
    if records.is_empty() {
        return Ok(());
    }
    write_records(table, records.as_slice())?;
    *records = Vec::new(alloc);
    Ok(())
}

// Whether a record has this key.
fn is_for(rec: &Rec, key: &[u8]) -> bool
    ensures { result ≡ has_key key.now rec.now.key }
{
    match rec.key() {
        Some(own) => equal_bytes(key, own),
        None => false,
    }
}

// The value of a key behind a record, where this one stood before it.
fn value_with<'a>(rec: &'a Rec, key: &[u8], before: Option<&'a [u8]>) -> Option<&'a [u8]>
    ensures { option_copied result
        ≡ cond (has_key key.now rec.now.key) rec.now.value (option_copied before.entry) }
{
    if is_for(rec, key) {
        return rec.value();
    }
    before
}

/// The value of a key after these records were written into the table; none where it has none then. Takes no memory.
pub fn value_after<'a>(
    table: &'a OrderedStore,
    records: &'a [(u64, Rec)],
    key: &[u8],
) -> Option<&'a [u8]>
    ensures { option_map (λ v. v.now) result
        ≡ map.get (latest_from table.now.store (records_of records.now)) key.now }
{
    let mut found = table.get(key);
    for (_, rec) in records {
        found = value_with(rec, key, found);
    }
    found
}

// How many keys more and how many less there are, where a key gets a value or loses it.
fn change_of(has_value: bool, is_there: bool) -> (usize, usize)
    ensures change { result ≡ (
      cond has_value (cond is_there 0 1) 0,
      cond has_value 0 (cond is_there 1 0),
    ) }
    ensures more { result.0 ≤ 1 }
    ensures less { result.1 ≤ 1 }
{
    match (has_value, is_there) {
        (true, false) => (1, 0),
        (false, true) => (0, 1),
        _ => (0, 0),
    }
}

// How many keys more and how many less a record leaves, behind these other ones.
fn change_by(table: &OrderedStore, before: &[(u64, Rec)], rec: &Rec) -> (usize, usize)
    ensures len { map.len (applied (latest_from table.now.store (records_of before.now))
        rec.now.key rec.now.value) + result.1
        ≡ map.len (latest_from table.now.store (records_of before.now)) + result.0 }
    ensures more { result.0 ≤ 1 }
    ensures less { result.1 ≤ 1 }
{
    match rec.key() {
        Some(key) => change_of(
            rec.value().is_some(),
            value_after(table, before, key).is_some(),
        ),
        None => (0, 0),
    }
}

// A number with so many more and so many less, which is at most this one.
fn moved_by(count: usize, more: usize, less: usize, most: usize) -> usize
    requires less { less ≤ count + more }
    requires fits { count + more ≤ less + most }
    ensures { result + less ≡ count + more }
{
    if less <= more {
        count + (more - less)
    } else {
        count - (less - more)
    }
}

/// How many keys there are after these records were written into the table, where there are at most so many. Takes no memory.
pub fn count_after(table: &OrderedStore, records: &[(u64, Rec)], most: usize) -> usize
    requires { map.len (latest_from table.now.store (records_of records.now)) ≤ most }
    ensures { result ≡ map.len (latest_from table.now.store (records_of records.now)) }
{
    let (mut more, mut less) = (0, 0);
    for i in 0..records.len() {
        let (new, gone) = change_by(table, &records[..i], &records[i].1);
        more += new;
        less += gone;
    }
    moved_by(table.len(), more, less, most)
}

/// Takes out the records of a key. Takes no memory.
pub fn take_out(records: &mut Vec<(u64, Rec)>, key: &[u8])
    ensures { records_of records.new.items ≡ without key.now (records_of records.old.items) }
{
    if !records.is_empty() {
        records.retain(
            |waiting: &(u64, Rec)|
                ensures { result ≡ not (has_key key.entry.now waiting.now.1.key) }
            { !is_for(&waiting.1, key) },
        );
    }
}

/// Records behind those that wait; where none wait the list itself is taken. After want of memory those that waited wait as before.
pub fn wait_behind(records: &mut Vec<(u64, Rec)>, more: Vec<(u64, Rec)>) -> Result<(), AllocError>
    ensures ok { OnOk result (records.new.items ≡ records.old.items ++ more.items) }
    ensures err { OnErr result (records.new.items ≡ records.old.items) }
{
    let mut more = more;
    if records.is_empty() {
        *records = more;
        return Ok(());
    }
    records.append(&mut more)
}

/// With so many more. A number of 2^64 is want of memory.
pub fn count_on(count: usize, more: usize) -> Result<usize, AllocError>
    ensures { IfOk result (λ n. n ≡ count + more) }
{
    count.checked_add(more).ok_or(AllocError)
}

fn slice_is_bytes(bytes: &[u8])
    ensures { IsBytes bytes.now }
{}

// Its key and its value are bytes, as a fact for what follows; does nothing.
fn record_is_bytes(rec: &Rec)
    ensures { IsOfBytes rec.now }
{
    if let Some(key) = rec.key() {
        slice_is_bytes(key);
    }
    if let Some(value) = rec.value() {
        slice_is_bytes(value);
    }
}

/// The keys and values of these records are bytes, as a fact for what follows; does nothing.
pub fn records_are_bytes(records: &[(u64, Rec)])
    ensures { AreOfBytes (records_of records.now) }
{
    for (_, rec) in records {
        record_is_bytes(rec);
    }
}
