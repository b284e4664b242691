//! Aggregates by groups and starts of windows, in a tree.
ghost use Rattle.std.specs.Prelude.{◌≡◌, ◌++◌, Some, None, OnOk, IfOk};
ghost use Rattle.ks_def_runs.specs.FinMap as fin;

use ks_record::Key;
use ks_wire::Agg;
use std::alloc::{AllocError, Global};
use std::collections::BTreeMap;
use std::marker::Model;

fn copy_spans(
    alloc: Global,
    tree: &BTreeMap<(Key, u64), Agg>,
) -> Result<Vec<((Key, u64), Agg)>, AllocError>
    ensures { IfOk result (λ v. v.items ≡ tree.now.entries) }
{
    let mut list = Vec::new(alloc);
    for (window, agg) in tree {
        list.push(((window.0.clone()?, window.1), *agg))?;
    }
    Ok(list)
}

/// A finite map from keys and starts of windows to aggregates.
#[derive(Drop)]
pub struct Spans {
    tree: BTreeMap<(Key, u64), Agg>,
}

impl Model for Spans {
    ghost use Rattle.ks_def_runs.specs.FinMap.{FinMap};
    ghost use Rattle.ks_query.specs.Windows.{by_window};
    ghost use Rattle.ks_wire.specs.declared.values.Agg.{Agg};
    ghost use Rattle.ks_oracle.specs.Trees.{map_of, Rises};

    ghost Value = { FinMap by_window Agg };

    ghost view = { λ t. map_of by_window t.tree.entries };

    ghost invariant = { λ t. Rises by_window t.tree.entries };
}

impl Spans {
    /// Without a window. Takes no memory.
    pub fn new(alloc: Global) -> Spans
        ensures { result ≡ fin.empty }
    {
        Spans {
            tree: BTreeMap::new(alloc),
        }
    }

    /// What a window has, if anything.
    pub fn get(&self, window: &(Key, u64)) -> Option<Agg>
        ensures { result ≡ fin.get self.now window.now }
    {
        self.tree.get(window).copied()
    }

    /// The window has this from now on.
    pub fn put(&mut self, window: (Key, u64), agg: Agg) -> Result<(), AllocError>
        ensures { OnOk result (self.new ≡ fin.insert self.old window agg) }
    {
        self.tree.insert(window, agg)?;
        Ok(())
    }

    /// A copy of the entries, in the order of keys and starts.
    pub fn list(&self, alloc: Global) -> Result<Vec<((Key, u64), Agg)>, AllocError>
        ensures { IfOk result (λ v. v.items ≡ fin.entries self.now) }
    {
        copy_spans(alloc, &self.tree)
    }
}
