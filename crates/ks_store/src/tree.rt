//! A finite map from bytes to bytes in a tree by keys, of which the plain store is made.
ghost use Rattle.std.specs.Prelude.{◌≡◌, IfOk, OnOk, OnErr, option_map};
ghost use Rattle.ks_def_runs.specs.Bytes.{Store, empty_store};
ghost use Rattle.ks_def_runs.specs.FinMap as map;
ghost use Rattle.ks_def_runs.specs.Pairs.{ArePairs};
ghost use Rattle.ks_def_runs.specs.Prefixes.{pairs_under};

use crate::pairs::{Pairs, pairs_with, set_at, take_away, value_at};
use ks_record::Blob;
use std::alloc::{AllocError, Global};
use std::collections::BTreeMap;
use std::marker::Model;

/// A finite map from bytes to bytes.
#[derive(Drop)]
pub struct Tree {
    alloc: Global,
    pairs: Pairs,
}

impl Model for Tree {
    ghost use Rattle.ks_def_runs.specs.Bytes.{Store};
    ghost use Rattle.ks_store.specs.Pairs.{store_of, pairs_of, IsTree};

    ghost Value = { Store };

    ghost view = { λ t. store_of t.pairs.entries };

    ghost invariant = { λ t. IsTree (pairs_of t.pairs.entries) };
}

impl Tree {
    /// The empty map; takes no memory.
    pub fn new(alloc: Global) -> Tree
        ensures { result ≡ empty_store }
    {
        Tree {
            alloc,
            pairs: BTreeMap::new(alloc),
        }
    }

    /// Its keys and values are bytes, as a fact for the calls that follow; does nothing.
    pub fn holds_bytes(&self)
        ensures { ArePairs (map.entries self.now) }
    {
        // What the type keeps is told where a field is looked at.
        let _alloc = &self.alloc;
    }

    /// The value of a key; none where it has none.
    pub fn get(&self, key: &[u8]) -> Option<&[u8]>
        ensures { option_map (λ v. v.now) result ≡ map.get self.now key.now }
    {
        value_at(&self.pairs, key)
    }

    /// Gives a key a value, in place of the one that it had. After want of memory the map is as before.
    pub fn put(&mut self, key: &[u8], value: &[u8]) -> Result<(), AllocError>
        ensures ok { OnOk result (self.new ≡ map.insert self.old key.now value.now) }
        ensures err { OnErr result (self.new ≡ self.old) }
    {
        let key = Vec::from_slice(self.alloc, key)?;
        let value = Vec::from_slice(self.alloc, value)?;
        set_at(&mut self.pairs, key, value)
    }

    /// Takes a key out, where it has a value.
    pub fn delete(&mut self, key: &[u8])
        ensures { self.new ≡ map.remove self.old key.now }
    {
        take_away(&mut self.pairs, key);
    }

    /// The pairs whose key begins so, in order of bytes; looks at every pair.
    pub fn scan(&self, front: &[u8]) -> Result<Vec<(Blob, Blob)>, AllocError>
        ensures { IfOk result (λ v. v.items ≡ pairs_under front.now self.now) }
    {
        pairs_with(self.alloc, &self.pairs, front)
    }

    /// How many keys have a value.
    pub fn len(&self) -> usize
        ensures { result ≡ map.len self.now }
    {
        self.pairs.len()
    }
}
