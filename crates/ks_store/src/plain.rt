//! A store that looks at every pair to find those of a prefix.
ghost use Rattle.std.specs.Prelude.{◌≡◌};
ghost use Rattle.ks_def_runs.specs.Bytes.{empty_store};
ghost use Rattle.ks_def_runs.specs.FinMap as map;
ghost use Rattle.ks_def_runs.specs.Pairs.{ArePairs};

use crate::store::KvStore;
use crate::tree::Tree;
use ks_record::Blob;
use std::alloc::{AllocError, Global};
use std::marker::Model;

/// A store in a tree by keys; `prefix` goes through all of it.
#[derive(Drop)]
pub struct PlainStore {
    tree: Tree,
}

impl Model for PlainStore {
    ghost use Rattle.ks_def_runs.specs.Bytes.{Store};

    ghost Value = { Store };

    ghost view = { λ s. s.tree };
}

impl PlainStore {
    /// A store without a key. Takes no memory.
    pub fn new(alloc: Global) -> PlainStore
        ensures { result ≡ empty_store }
    {
        PlainStore {
            tree: Tree::new(alloc),
        }
    }

    /// Its keys and values are bytes, as a fact for the calls that follow; does nothing.
    pub fn holds_bytes(&self)
        ensures { ArePairs (map.entries self.now) }
    {
        self.tree.holds_bytes();
    }
}

impl KvStore for PlainStore {
    ghost contents = { λ s. s };

    fn get(&self, key: &[u8]) -> Option<&[u8]> {
        self.tree.get(key)
    }

    fn put(&mut self, key: &[u8], value: &[u8]) -> Result<(), AllocError> {
        self.tree.put(key, value)
    }

    fn delete(&mut self, key: &[u8]) {
        self.tree.delete(key);
    }

    fn prefix(&self, front: &[u8]) -> Result<Vec<(Blob, Blob)>, AllocError> {
        self.tree.scan(front)
    }

    fn len(&self) -> usize {
        self.tree.len()
    }
}
