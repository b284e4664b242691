//! A store that looks at the pairs of a prefix alone.
ghost use Rattle.std.specs.Prelude.{◌≡◌, OnOk, OnErr};
ghost use Rattle.ks_def_runs.specs.Bytes.{empty_store};
ghost use Rattle.ks_def_runs.specs.FinMap as map;
ghost use Rattle.ks_def_runs.specs.Pairs.{ArePairs};
ghost use Rattle.ks_store.specs.Hashing.{start_by};

use crate::store::KvStore;
use crate::table::Table;
use ks_record::Blob;
use std::alloc::{AllocError, Global};
use std::marker::Model;

/// A store in a hash table by keys; `prefix` looks at the pairs under a whole front alone.
#[derive(Drop)]
pub struct OrderedStore {
    table: Table,
}

impl Model for OrderedStore {
    ghost use Rattle.ks_store.specs.Rows.{HashedStore};

    ghost Value = { HashedStore };

    ghost view = { λ s. s.table };
}

impl OrderedStore {
    /// A store without a key, whose hashes of keys begin with this seed: keys can be searched for that have one hash by a seed that is
    /// known. Takes no memory.
    pub fn new(alloc: Global, seed: u64) -> OrderedStore
        ensures store { result.store ≡ empty_store }
        ensures start { result.start ≡ start_by seed }
    {
        OrderedStore {
            table: Table::new(alloc, seed),
        }
    }

    /// Its keys and values are bytes, as a fact for the calls that follow; does nothing.
    pub fn holds_bytes(&self)
        ensures { ArePairs (map.entries self.now.store) }
    {
        self.table.holds_bytes();
    }
}

impl KvStore for OrderedStore {
    ghost contents = { λ s. s.store };

    fn get(&self, key: &[u8]) -> Option<&[u8]> {
        self.table.get(key)
    }

    fn put(&mut self, key: &[u8], value: &[u8]) -> Result<(), AllocError>
        ensures ok { OnOk result (self.new.store
            ≡ map.insert self.old.store key.now value.now) }
        ensures err { OnErr result (self.new.store ≡ self.old.store) }
        ensures start { self.new.start ≡ self.old.start }
    {
        self.table.put(key, value)
    }

    fn delete(&mut self, key: &[u8])
        ensures gone { self.new.store ≡ map.remove self.old.store key.now }
        ensures start { self.new.start ≡ self.old.start }
    {
        self.table.delete(key);
    }

    fn prefix(&self, front: &[u8]) -> Result<Vec<(Blob, Blob)>, AllocError> {
        self.table.seek(front)
    }

    fn len(&self) -> usize {
        self.table.len()
    }
}
