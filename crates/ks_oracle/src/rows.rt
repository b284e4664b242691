//! Tables: rows by keys, in a tree.
ghost use Rattle.std.specs.Prelude.{◌≡◌, ◌++◌, Some, None, option_copied, OnOk, IfOk};
ghost use Rattle.ks_def_runs.specs.Bytes.{by_bytes};
ghost use Rattle.ks_def_runs.specs.FinMap as fin;
ghost use Rattle.ks_def_runs.specs.Table.{write};

use ks_record::Key;
use ks_row::Row;
use std::alloc::{AllocError, Global};
use std::collections::BTreeMap;
use std::marker::Model;

fn copy_rows(alloc: Global, tree: &BTreeMap<Key, Row>) -> Result<Vec<(Key, Row)>, AllocError>
    ensures { IfOk result (λ v. v.items ≡ tree.now.entries) }
{
    let mut list = Vec::new(alloc);
    for (key, row) in tree {
        list.push((key.clone()?, row.clone()?))?;
    }
    Ok(list)
}

/// A table: a finite map from keys to rows.
#[derive(Drop)]
pub struct Rows {
    tree: BTreeMap<Key, Row>,
}

impl Model for Rows {
    ghost use Rattle.std.specs.Prelude.{List};
    ghost use Rattle.ks_def_runs.specs.Bytes.{by_bytes};
    ghost use Rattle.ks_def_runs.specs.FinMap.{FinMap};
    ghost use Rattle.ks_expr.specs.Eval.{Row};
    ghost use Rattle.ks_oracle.specs.Trees.{map_of, Rises};

    ghost Value = { FinMap by_bytes Row };

    ghost view = { λ t. map_of by_bytes t.tree.entries };

    ghost invariant = { λ t. Rises by_bytes t.tree.entries };
}

impl Rows {
    /// Without a row. Takes no memory.
    pub fn new(alloc: Global) -> Rows
        ensures { result ≡ fin.empty }
    {
        Rows {
            tree: BTreeMap::new(alloc),
        }
    }

    /// The row at a key.
    pub fn get(&self, key: &Key) -> Option<&Row>
        ensures { option_copied result ≡ fin.get self.now key.now }
    {
        self.tree.get(key)
    }

    fn put(&mut self, key: Key, row: Row) -> Result<(), AllocError>
        ensures { OnOk result (self.new ≡ fin.insert self.old key row) }
    {
        self.tree.insert(key, row)?;
        Ok(())
    }

    fn take(&mut self, key: &Key)
        ensures { self.new ≡ fin.remove self.old key.now }
    {
        self.tree.remove(key);
    }

    /// The row at the key becomes this one, or goes.
    pub fn set(&mut self, key: Key, row: Option<Row>) -> Result<(), AllocError>
        ensures { OnOk result (self.new ≡ write by_bytes self.old key row) }
    {
        match row {
            Some(row) => self.put(key, row),
            None => {
                self.take(&key);
                Ok(())
            }
        }
    }

    /// A copy of the entries, in the order of the keys.
    pub fn list(&self, alloc: Global) -> Result<Vec<(Key, Row)>, AllocError>
        ensures { IfOk result (λ v. v.items ≡ fin.entries self.now) }
    {
        copy_rows(alloc, &self.tree)
    }
}
