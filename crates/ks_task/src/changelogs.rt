//! What a task keeps in its changelogs, with their stores.
ghost use Rattle.std.specs.Prelude.{◌≡◌, ◌<◌, ◌∷◌, List, OnOk, length, map, drop};
ghost use Rattle.ks_def_tasks.specs.Bytes.{records_at};
ghost use Rattle.ks_history.specs.State.{offset_in};
ghost use Rattle.ks_record.specs.Bytes.{IsBytes};
ghost use Rattle.ks_record.specs.Records.{Record, record_seen, placed_of_list};
ghost use Rattle.ks_record.specs.declared.record.PartId.{PartId as Part};
ghost use Rattle.ks_law_step.specs.Whole.{IsRecord, AreStores};
ghost use Rattle.ks_cache.specs.Changelogs.{stores_in};
ghost use Rattle.ks_standby.specs.Replicas.{numbers_of};
ghost use Rattle.ks_task.specs.Views.{with_records, log_after, ended, holding, plain_log, cached_in};

use ks_cache::{Changelog, TaskStore};
use ks_record::{PartId, PlacedRecords, RecordRef};
use std::alloc::{AllocError, Global};

// The record at a place, which is for the partition `at`, where that is this one: whatever comes behind it is kept after it.
fn keep_own(
    store: &mut TaskStore,
    part: PartId,
    at: PartId,
    made: &PlacedRecords,
    place: usize,
) -> Result<(), AllocError>
    requires { place < length made.now }
    ensures { OnOk result ((rest : List (Part × Record))
        → with_records store.new (records_at part rest)
        ≡ with_records store.old (records_at part ((at, placed_of_list made.now place) ∷ rest))) }
{
    if part.is(at) {
        store.keep(made.get(place))
    } else {
        Ok(())
    }
}

fn keep_all(
    store: &mut TaskStore,
    part: PartId,
    made: &PlacedRecords,
    from: usize,
) -> Result<(), AllocError>
    ensures { OnOk result (store.new
        ≡ with_records store.old (records_at part (drop from made.now))) }
{
    for place in from..made.len() {
        keep_own(store, part, made.part(place), made, place)?;
    }
    Ok(())
}

fn keep_in(
    changelog: &mut Changelog,
    part: u8,
    made: &PlacedRecords,
    from: usize,
) -> Result<(), AllocError>
    ensures ok { OnOk result (changelog.new ≡ log_after part (drop from made.now) changelog.old) }
    ensures number { changelog.new.topic ≡ changelog.old.topic }
{
    let part = PartId {
        topic: changelog.topic,
        part,
    };
    keep_all(&mut changelog.store, part, made, from)
}

/// Each store takes the records for its changelog, from one on; after want of memory the stores are to be dropped.
pub fn keep_records(
    changelogs: &mut Vec<Changelog>,
    part: u8,
    made: &PlacedRecords,
    from: usize,
) -> Result<(), AllocError>
    ensures ok { OnOk result (changelogs.new.items
        ≡ map (log_after part (drop from made.now)) changelogs.old.items) }
    ensures numbers { numbers_of changelogs.new.items ≡ numbers_of changelogs.old.items }
{
    for i in 0..changelogs.len() {
        keep_in(&mut changelogs[i], part, made, from)?;
    }
    Ok(())
}

fn named_end(ends: &[(u16, u64)], number: u16, old: u64) -> u64
    ensures { result ≡ offset_in old number ends.now }
{
    let mut rest = ends;
    while let [end, more @ ..] = rest {
        if number == end.0 {
            return end.1;
        }
        rest = more;
    }
    old
}

fn end_one(changelog: &mut Changelog, ends: &[(u16, u64)]) -> Result<(), AllocError>
    ensures ok { OnOk result (changelog.new ≡ ended ends.now changelog.old) }
    ensures number { changelog.new.topic ≡ changelog.old.topic }
{
    changelog.store.flush()?;
    changelog.position = named_end(ends, changelog.topic, changelog.position);
    Ok(())
}

fn apply_one(changelog: &mut Changelog) -> Result<(), AllocError>
    ensures { changelog.new ≡ changelog.old }
{
    changelog.store.apply()
}

/// The records that wait in the stores since they were restored are written into their tables; what the stores hold is the same, also
/// after want of memory.
pub fn apply_changelogs(changelogs: &mut Vec<Changelog>) -> Result<(), AllocError>
    ensures { changelogs.new.items ≡ changelogs.old.items }
{
    for i in 0..changelogs.len() {
        apply_one(&mut changelogs[i])?;
    }
    Ok(())
}

/// The named ends are the positions in their changelogs, and what the stores held back is written; after want of memory the stores are to
/// be dropped.
pub fn end_changelogs(
    changelogs: &mut Vec<Changelog>,
    ends: &[(u16, u64)],
) -> Result<(), AllocError>
    ensures { OnOk result (changelogs.new.items ≡ map (ended ends.now) changelogs.old.items) }
{
    for i in 0..changelogs.len() {
        end_one(&mut changelogs[i], ends)?;
    }
    Ok(())
}

fn hold_one(alloc: Global, changelog: &mut Changelog, cache: u32) -> Result<(), AllocError>
    ensures ok { OnOk result (changelog.new ≡ holding cache changelog.old) }
    ensures plain { plain_log changelog.new ≡ plain_log changelog.old }
{
    changelog.store.hold_back(alloc, cache)
}

/// Each store holds back at most so many pairs from now on, and nothing yet. Whatever comes of it, the positions and the stores' maps are
/// as before.
pub fn hold_changelogs(
    alloc: Global,
    changelogs: &mut Vec<Changelog>,
    cache: u32,
) -> Result<(), AllocError>
    ensures ok { OnOk result (changelogs.new.items ≡ map (holding cache) changelogs.old.items) }
    ensures plain { map plain_log changelogs.new.items ≡ map plain_log changelogs.old.items }
{
    for i in 0..changelogs.len() {
        hold_one(alloc, &mut changelogs[i], cache)?;
    }
    Ok(())
}

/// How many pairs the store of a changelog holds back; 0 where there is no such changelog. Takes no memory.
pub fn cached_of(changelogs: &[Changelog], number: u16) -> usize
    ensures { result ≡ length (cached_in changelogs.now number) }
{
    let mut rest = changelogs;
    while let [changelog, more @ ..] = rest {
        if number == changelog.topic {
            return changelog.store.cached();
        }
        rest = more;
    }
    0
}

fn slice_is_bytes(bytes: &[u8])
    ensures { IsBytes bytes.now }
{}

/// Its key and its value are bytes, and its time has 64 bits, as a fact for what follows; does nothing.
pub fn record_is_bytes(rec: RecordRef<'_>)
    ensures { IsRecord (record_seen rec.entry) }
{
    if let Some(key) = rec.key {
        slice_is_bytes(key);
    }
    if let Some(value) = rec.value {
        slice_is_bytes(value);
    }
    let _time = rec.ts;
}

/// What the stores keep are bytes, as a fact for what follows; does nothing.
#[tactic(auto, using(crate::proofs::Holding::held_more))]
pub fn hold_bytes(changelogs: &[Changelog])
    ensures { AreStores (stores_in changelogs.now) }
{
    if let [changelog, more @ ..] = changelogs {
        changelog.store.holds_bytes();
        hold_bytes(more);
    }
}
