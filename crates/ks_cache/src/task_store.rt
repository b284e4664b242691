//! A task's store: a table, or a table behind a cache.
ghost use Rattle.std.specs.Prelude.{◌≡◌, OnOk, OnErr, IfOk, IfErr, length, []};
ghost use Rattle.ks_def_runs.specs.FinMap as map;
ghost use Rattle.ks_def_runs.specs.Pairs.{ArePairs};
ghost use Rattle.ks_record.specs.Records.{record_seen};
ghost use Rattle.ks_store.specs.Restored.{records_of};
ghost use Rattle.ks_cache.specs.Kept.{empty_kept, put_kept, delete_kept, kept_with, kept_after, held_back, kept_plain};

use crate::cached_store::CachedStore;
use ks_record::{Blob, Rec, RecordRef};
use ks_restoring::RestoringStore;
use ks_store::KvStore;
use std::alloc::{AllocError, Global};
use std::marker::Model;
use std::mem;

/// The two ways in which a store is kept.
#[derive(Drop)]
pub(crate) enum Holding {
    Plain(RestoringStore),
    Cached(CachedStore<RestoringStore>),
}

/// A store that writes at once, or one that holds its newest writes back. It is seen as its map with what is held back over it, the list
/// of what is held back, and how many pairs that list may have: 0 where it writes at once.
#[derive(Drop)]
pub struct KeptStore {
    store: Holding,
}

impl Model for KeptStore {
    ghost use Rattle.ks_cache.specs.Kept.{Kept};
    ghost use Rattle.ks_cache.specs.Holdings.{kept_of};

    ghost Value = { Kept };

    ghost view = { λ s. kept_of s.store };
}

impl KeptStore {
    /// An empty store that writes at once, and whose hashes of keys begin with this seed. Takes no memory.
    pub fn new(alloc: Global, seed: u64) -> KeptStore
        ensures { result ≡ empty_kept }
    {
        KeptStore {
            store: Holding::Plain(RestoringStore::new(alloc, seed)),
        }
    }

    /// Its keys and values are bytes, as a fact for the calls that follow; does nothing.
    pub fn holds_bytes(&self)
        ensures { ArePairs (map.entries self.now.whole) }
    {
        match &self.store {
            Holding::Plain(store) => store.holds_bytes(),
            Holding::Cached(store) => store.holds_bytes(),
        }
    }

    /// How many pairs are held back. Takes no memory.
    pub fn cached(&self) -> usize
        ensures { result ≡ length self.now.cached }
    {
        match &self.store {
            Holding::Plain(_) => 0,
            Holding::Cached(store) => store.cached(),
        }
    }

    /// Writes all that is held back. After want of memory the map is as before.
    pub fn flush(&mut self) -> Result<(), AllocError>
        ensures ok { OnOk result (self.new ≡ held_back self.old.capacity self.old) }
        ensures err { OnErr result (self.new.whole ≡ self.old.whole) }
    {
        match &mut self.store {
            Holding::Plain(_) => Ok(()),
            Holding::Cached(store) => store.flush(),
        }
    }

    /// Writes the records that wait since it was restored into its table. The map and what is held back are the same, also after want
    /// of memory; where nothing waits nothing happens.
    pub fn apply(&mut self) -> Result<(), AllocError>
        ensures { self.new ≡ self.old }
    {
        match &mut self.store {
            Holding::Plain(store) => store.apply(),
            // Nothing waits there: `hold_back` has it written first.
            Holding::Cached(_) => Ok(()),
        }
    }

    // Writes what waits where a cache is to be laid over it: below a cache nothing waits.
    fn apply_below(&mut self, cache: u32) -> Result<(), AllocError>
        ensures { self.new ≡ self.old }
    {
        if cache == 0 {
            return Ok(());
        }
        self.apply()
    }

    // The store alone, where nothing is held back. Takes no memory.
    fn into_table(self) -> RestoringStore
        requires { self.cached ≡ [] }
        ensures { result ≡ self.whole }
    {
        let KeptStore { store } = self;
        match store {
            Holding::Plain(table) => table,
            Holding::Cached(cached) => cached.into_inner(),
        }
    }

    // The same table, behind a cache of at most so many pairs where that isn't 0.
    fn over(alloc: Global, table: RestoringStore, cache: u32) -> Result<KeptStore, RestoringStore>
        ensures ok { IfOk result (λ s. s ≡ held_back cache (kept_plain table)) }
        ensures err { IfErr result (λ t. t ≡ table) }
    {
        if cache == 0 {
            return Ok(KeptStore {
                store: Holding::Plain(table),
            });
        }
        match CachedStore::new(alloc, table, cache) {
            Ok(store) => Ok(KeptStore {
                store: Holding::Cached(store),
            }),
            Err(failed) => Err(failed.value),
        }
    }

    /// From now on it holds back at most so many pairs, and writes at once where that is 0; what was held back is written first. After
    /// want of memory the map is as before.
    pub fn hold_back(&mut self, alloc: Global, cache: u32) -> Result<(), AllocError>
        ensures ok { OnOk result (self.new ≡ held_back cache self.old) }
        ensures err { OnErr result (self.new.whole ≡ self.old.whole) }
    {
        self.flush()?;
        self.apply_below(cache)?;
        let table = mem::replace(self, KeptStore::new(alloc, 0)).into_table();
        match KeptStore::over(alloc, table, cache) {
            Ok(store) => {
                *self = store;
                Ok(())
            }
            Err(table) => {
                self.store = Holding::Plain(table);
                Err(AllocError)
            }
        }
    }

    /// Takes a record of its changelog: one with a value puts it, one without deletes its key, one without a key changes nothing.
    pub fn keep(&mut self, rec: RecordRef<'_>) -> Result<(), AllocError>
        ensures ok { OnOk result (self.new ≡ kept_with self.old (record_seen rec.entry).key
            (record_seen rec.entry).value) }
        ensures err { OnErr result (self.new.whole ≡ self.old.whole) }
    {
        match (rec.key, rec.value) {
            (Some(key), Some(value)) => self.put(key, value),
            (Some(key), None) => {
                self.delete(key);
                Ok(())
            }
            (None, _) => Ok(()),
        }
    }

    // Takes records of its changelog, one after another.
    fn keep_each(&mut self, recs: &[(u64, Rec)]) -> Result<(), AllocError>
        ensures { OnOk result (self.new ≡ kept_after self.old (records_of recs.now)) }
    {
        for (_, rec) in recs {
            self.keep(rec.as_ref())?;
        }
        Ok(())
    }

    /// Takes records of its changelog, each with its offset, in order; where it writes at once they wait for the first write or for
    /// `apply`. After want of memory the first of them were taken, and the store is to be dropped.
    pub fn restore(&mut self, recs: Vec<(u64, Rec)>) -> Result<(), AllocError>
        ensures { OnOk result (self.new ≡ kept_after self.old (records_of recs.items)) }
    {
        if let Holding::Plain(store) = &mut self.store {
            return store.restore(recs);
        }
        self.keep_each(recs.as_slice())
    }
}

impl KvStore for KeptStore {
    ghost contents = { λ s. s.whole };

    fn get(&self, key: &[u8]) -> Option<&[u8]> {
        match &self.store {
            Holding::Plain(store) => store.get(key),
            Holding::Cached(store) => store.get(key),
        }
    }

    fn put(&mut self, key: &[u8], value: &[u8]) -> Result<(), AllocError>
        ensures ok { OnOk result (self.new.whole ≡ map.insert self.old.whole key.now value.now) }
        ensures err { OnErr result (self.new.whole ≡ self.old.whole) }
        ensures kept { OnOk result (self.new ≡ put_kept self.old key.now value.now) }
    {
        match &mut self.store {
            Holding::Plain(store) => store.put(key, value),
            Holding::Cached(store) => store.put(key, value),
        }
    }

    fn delete(&mut self, key: &[u8])
        ensures map { self.new.whole ≡ map.remove self.old.whole key.now }
        ensures kept { self.new ≡ delete_kept self.old key.now }
    {
        match &mut self.store {
            Holding::Plain(store) => store.delete(key),
            Holding::Cached(store) => store.delete(key),
        }
    }

    fn prefix(&self, front: &[u8]) -> Result<Vec<(Blob, Blob)>, AllocError> {
        match &self.store {
            Holding::Plain(store) => store.prefix(front),
            Holding::Cached(store) => store.prefix(front),
        }
    }

    fn len(&self) -> usize {
        match &self.store {
            Holding::Plain(store) => store.len(),
            Holding::Cached(store) => store.len(),
        }
    }
}
