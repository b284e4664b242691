//! A store that was restored.
ghost use Rattle.std.specs.Prelude.{◌≡◌, OnOk, OnErr};
ghost use Rattle.ks_def_runs.specs.Bytes.{empty_store};
ghost use Rattle.ks_def_runs.specs.FinMap as map;
ghost use Rattle.ks_def_runs.specs.Pairs.{ArePairs};
ghost use Rattle.ks_history.specs.Machine.{latest_from};
ghost use Rattle.ks_store.specs.Restored.{records_of};

use crate::laying::lay_pairs;
use crate::waiting::{
    count_after, count_on, records_are_bytes, take_out, value_after, wait_behind, write_records,
    write_waiting,
};
use ks_record::{Blob, Rec};
use ks_store::{KvStore, OrderedStore, PlainStore};
use std::alloc::{AllocError, Global};
use std::marker::Model;

/// An `OrderedStore` beside which the records that it was restored from wait: they are written into it by the first `put`, or by
/// `apply`. It is seen as the map that they leave.
#[derive(Drop)]
pub struct RestoringStore {
    alloc: Global,
    table: OrderedStore,
    // with their offsets, in the order of the changelog
    records: Vec<(u64, Rec)>,
    // No more keys than this are there once all records are written.
    most: usize,
}

impl Model for RestoringStore {
    ghost use Rattle.std.specs.Prelude.{◌≤◌};
    ghost use Rattle.ks_def_runs.specs.Bytes.{Store};
    ghost use Rattle.ks_def_runs.specs.FinMap as map;
    ghost use Rattle.ks_history.specs.Machine.{latest_from};
    ghost use Rattle.ks_store.specs.Restored.{records_of};

    ghost Value = { Store };

    ghost view = { λ s. latest_from s.table.store (records_of s.records.items) };

    ghost invariant = { λ s. map.len (latest_from s.table.store (records_of s.records.items))
        ≤ s.most };
}

impl RestoringStore {
    /// A store without a key, whose hashes of keys begin with this seed. Takes no memory.
    pub fn new(alloc: Global, seed: u64) -> RestoringStore
        ensures { result ≡ empty_store }
    {
        RestoringStore {
            alloc,
            table: OrderedStore::new(alloc, seed),
            records: Vec::new(alloc),
            most: 0,
        }
    }

    /// Takes records of its changelog, each with its offset, in order; they wait. After want of memory it is as before.
    pub fn restore(&mut self, recs: Vec<(u64, Rec)>) -> Result<(), AllocError>
        ensures ok { OnOk result (self.new ≡ latest_from self.old (records_of recs.items)) }
        ensures err { OnErr result (self.new ≡ self.old) }
    {
        let most = count_on(self.most, recs.len())?;
        wait_behind(&mut self.records, recs)?;
        self.most = most;
        Ok(())
    }

    /// Writes what waits into the table, and lets it go; where nothing waits nothing happens. The map is the same, also after want of
    /// memory.
    pub fn apply(&mut self) -> Result<(), AllocError>
        ensures { self.new ≡ self.old }
    {
        write_waiting(self.alloc, &mut self.table, &mut self.records)
    }

    /// Its keys and values are bytes, as a fact for the calls that follow; does nothing.
    pub fn holds_bytes(&self)
        ensures { ArePairs (map.entries self.now) }
    {
        self.table.holds_bytes();
        records_are_bytes(&self.records);
    }
}

impl KvStore for RestoringStore {
    ghost contents = { λ s. s };

    fn get(&self, key: &[u8]) -> Option<&[u8]> {
        value_after(&self.table, &self.records, key)
    }

    fn put(&mut self, key: &[u8], value: &[u8]) -> Result<(), AllocError> {
        write_waiting(self.alloc, &mut self.table, &mut self.records)?;
        self.table.put(key, value)?;
        self.most = self.table.len();
        Ok(())
    }

    fn delete(&mut self, key: &[u8]) {
        take_out(&mut self.records, key);
        self.table.delete(key);
    }

    fn prefix(&self, front: &[u8]) -> Result<Vec<(Blob, Blob)>, AllocError> {
        if self.records.is_empty() {
            return self.table.prefix(front);
        }
        let mut merged = PlainStore::new(self.alloc);
        lay_pairs(&mut merged, self.table.prefix(front)?)?;
        write_records(&mut merged, &self.records)?;
        merged.prefix(front)
    }

    fn len(&self) -> usize {
        count_after(&self.table, &self.records, self.most)
    }
}
