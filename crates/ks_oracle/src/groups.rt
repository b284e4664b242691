//! Aggregates by groups, in a tree.
ghost use Rattle.std.specs.Prelude.{◌≡◌, ◌++◌, Some, None, OnOk, IfOk};
ghost use Rattle.ks_def_runs.specs.FinMap as fin;

use ks_record::Key;
use ks_wire::Agg;
use std::alloc::{AllocError, Global};
use std::collections::BTreeMap;
use std::marker::Model;

fn copy_groups(alloc: Global, tree: &BTreeMap<Key, Agg>) -> Result<Vec<(Key, Agg)>, AllocError>
    ensures { IfOk result (λ v. v.items ≡ tree.now.entries) }
{
    let mut list = Vec::new(alloc);
    for (group, agg) in tree {
        list.push((group.clone()?, *agg))?;
    }
    Ok(list)
}

/// A finite map from the keys of groups to aggregates.
#[derive(Drop)]
pub struct Groups {
    tree: BTreeMap<Key, Agg>,
}

impl Model for Groups {
    ghost use Rattle.ks_def_runs.specs.Bytes.{by_bytes};
    ghost use Rattle.ks_def_runs.specs.FinMap.{FinMap};
    ghost use Rattle.ks_wire.specs.declared.values.Agg.{Agg};
    ghost use Rattle.ks_oracle.specs.Trees.{map_of, Rises};

    ghost Value = { FinMap by_bytes Agg };

    ghost view = { λ t. map_of by_bytes t.tree.entries };

    ghost invariant = { λ t. Rises by_bytes t.tree.entries };
}

impl Groups {
    /// Without a group. Takes no memory.
    pub fn new(alloc: Global) -> Groups
        ensures { result ≡ fin.empty }
    {
        Groups {
            tree: BTreeMap::new(alloc),
        }
    }

    /// What a group has, if anything.
    pub fn get(&self, group: &Key) -> Option<Agg>
        ensures { result ≡ fin.get self.now group.now }
    {
        self.tree.get(group).copied()
    }

    /// The group has this from now on.
    pub fn put(&mut self, group: Key, agg: Agg) -> Result<(), AllocError>
        ensures { OnOk result (self.new ≡ fin.insert self.old group agg) }
    {
        self.tree.insert(group, agg)?;
        Ok(())
    }

    /// A copy of the entries, in the order of the groups.
    pub fn list(&self, alloc: Global) -> Result<Vec<(Key, Agg)>, AllocError>
        ensures { IfOk result (λ v. v.items ≡ fin.entries self.now) }
    {
        copy_groups(alloc, &self.tree)
    }
}
