//! A finite map from bytes to bytes in a hash table by keys, beside which the keys that begin with a length stand by what they so begin
//! with.
ghost use Rattle.std.specs.Prelude.{◌≡◌, IfOk, OnOk, OnErr, option_map};
ghost use Rattle.ks_def_runs.specs.Bytes.{empty_store};
ghost use Rattle.ks_def_runs.specs.FinMap as map;
ghost use Rattle.ks_def_runs.specs.Pairs.{ArePairs};
ghost use Rattle.ks_def_runs.specs.Prefixes.{pairs_under};
ghost use Rattle.ks_store.specs.Hashing.{start_by};

use crate::groups::{Groups, is_front, keys_under, list_key, unlist_key};
use crate::hashing::KeyHashing;
use crate::rows::{Rows, put_row, row_at, rows_at, rows_under, take_row};
use ks_record::Blob;
use std::alloc::{AllocError, Global};
use std::collections::HashMap;
use std::marker::Model;

/// A finite map from bytes to bytes.
#[derive(Drop)]
pub struct Table {
    alloc: Global,
    rows: Rows,
    // the keys with a front that have a row, by front
    groups: Groups,
}

impl Model for Table {
    ghost use Rattle.std.specs.Prelude.{◌≡◌};
    ghost use Rattle.ks_store.specs.Groups.{groups_of};
    ghost use Rattle.ks_store.specs.Hashing.{start_of};
    ghost use Rattle.ks_store.specs.Rows.{HashedStore, row_store, IsTable};

    ghost Value = { HashedStore };

    ghost view = { λ t. record { store = row_store t.rows.rows; start = t.rows.start } };

    ghost invariant = { λ t. IsTable t.rows.rows (groups_of t.groups.entries)
        × (start_of t.groups ≡ t.rows.start) };
}

impl Table {
    /// The empty map, whose hashes of keys begin with this seed; takes no memory.
    pub fn new(alloc: Global, seed: u64) -> Table
        ensures store { result.store ≡ empty_store }
        ensures start { result.start ≡ start_by seed }
    {
        let hashing = KeyHashing::new(seed);
        Table {
            alloc,
            rows: Rows::new(alloc, hashing),
            groups: HashMap::with_hasher(alloc, hashing),
        }
    }

    /// Its keys and values are bytes, as a fact for the calls that follow; does nothing.
    pub fn holds_bytes(&self)
        ensures { ArePairs (map.entries self.now.store) }
    {
        // What the type keeps is told where a field is looked at.
        let _alloc = &self.alloc;
    }

    /// The value of a key; none where it has none.
    pub fn get(&self, key: &[u8]) -> Option<&[u8]>
        ensures { option_map (λ v. v.now) result ≡ map.get self.now.store key.now }
    {
        row_at(&self.rows, key)
    }

    /// Gives a key a value, in place of the one that it had. A new key is listed; one that can't be for want of memory loses its value
    /// again, so that the map is as before.
    pub fn put(&mut self, key: &[u8], value: &[u8]) -> Result<(), AllocError>
        ensures ok { OnOk result (self.new.store ≡ map.insert self.old.store key.now value.now) }
        ensures err { OnErr result (self.new.store ≡ self.old.store) }
        ensures start { self.new.start ≡ self.old.start }
    {
        let value = Blob::from_slice(self.alloc, value)?;
        if put_row(self.alloc, &mut self.rows, key, value)? {
            return Ok(());
        }
        match list_key(self.alloc, &mut self.groups, key) {
            Ok(()) => Ok(()),
            Err(e) => {
                take_row(&mut self.rows, key);
                Err(e)
            }
        }
    }

    /// Takes a key out, where it has a value.
    pub fn delete(&mut self, key: &[u8])
        ensures gone { self.new.store ≡ map.remove self.old.store key.now }
        ensures start { self.new.start ≡ self.old.start }
    {
        take_row(&mut self.rows, key);
        unlist_key(&mut self.groups, key);
    }

    /// The pairs whose key begins so, in order of bytes; looks at these alone where the front is one.
    pub fn seek(&self, front: &[u8]) -> Result<Vec<(Blob, Blob)>, AllocError>
        ensures { IfOk result (λ v. v.items ≡ pairs_under front.now self.now.store) }
    {
        if is_front(front) {
            let keys = keys_under(self.alloc, &self.groups, front)?;
            return rows_at(self.alloc, &self.rows, keys);
        }
        rows_under(self.alloc, &self.rows, front)
    }

    /// How many keys have a value.
    pub fn len(&self) -> usize
        ensures { result ≡ map.len self.now.store }
    {
        self.rows.len()
    }
}
