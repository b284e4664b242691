//! Items of streams.
ghost use Rattle.std.specs.Prelude.{◌≡◌, Some, None, cond, nat_eq, option_copied, IfOk};
ghost use Rattle.ks_expr.specs.Terms.{test_of, set_of};
ghost use Rattle.ks_query.specs.Streams.{item_of, filter_item, map_item, rekey_item, group_key as group_of};

use crate::record::JobRecord;
use ks_expr::{Pred, Proj, holds, project};
use ks_record::{Key, Name};
use ks_row::{Row, key_of_field};
use std::alloc::{AllocError, Global};
use std::marker::Model;

/// An item of a stream.
#[derive(Drop)]
pub struct Item {
    key: Option<Key>,
    row: Row,
    time: u64,
}

impl Model for Item {
    ghost use Rattle.ks_query.specs.Streams.{StreamItem};

    ghost Value = { StreamItem };

    ghost view = { λ x. record { key = x.key; row = x.row; time = x.time } };
}

impl Item {
    /// Its row.
    pub fn row(&self) -> &Row
        ensures { result.now ≡ self.now.row }
    {
        &self.row
    }

    /// Its time, in milliseconds.
    pub fn time(&self) -> u64
        ensures { result ≡ self.now.time }
    {
        self.time
    }

    /// The item of a record that has a row.
    pub fn of(input: &JobRecord) -> Result<Option<Item>, AllocError>
        ensures { IfOk result (λ o. o ≡ item_of input.now) }
    {
        let Some(row) = input.row() else {
            return Ok(None);
        };
        let key = match input.key() {
            Some(key) => Some(key.clone()?),
            None => None,
        };
        Ok(Some(Item {
            key,
            row: row.clone()?,
            time: input.time(),
        }))
    }

    /// The item again, where its row meets the predicate.
    pub fn where_holds(&self, test: &Pred) -> Result<Option<Item>, AllocError>
        ensures { IfOk result (λ o. o ≡ filter_item (test_of test.now) self.now) }
    {
        if holds(test, &self.row) {
            Ok(Some(Item {
                key: self.key.clone()?,
                row: self.row.clone()?,
                time: self.time,
            }))
        } else {
            Ok(None)
        }
    }

    /// The item with the projected row; none where it has no field.
    pub fn with_row_of(&self, alloc: Global, set: &Proj) -> Result<Option<Item>, AllocError>
        ensures { IfOk result (λ o. o ≡ map_item (set_of set.now) self.now) }
    {
        let Some(row) = project(alloc, set, Some(&self.row), None)? else {
            return Ok(None);
        };
        Ok(Some(Item {
            key: self.key.clone()?,
            row,
            time: self.time,
        }))
    }

    /// The item with the key that a field gives; none where it gives none.
    pub fn with_key_of(&self, alloc: Global, name: &Name) -> Result<Option<Item>, AllocError>
        ensures { IfOk result (λ o. o ≡ rekey_item name.now self.now) }
    {
        let Some(key) = key_of_field(alloc, &self.row, name.as_str().as_bytes())? else {
            return Ok(None);
        };
        Ok(Some(Item {
            key: Some(key),
            row: self.row.clone()?,
            time: self.time,
        }))
    }

    /// The group of the item: its own key, or the one that the field gives.
    pub fn group(&self, alloc: Global, by: Option<&Name>) -> Result<Option<Key>, AllocError>
        ensures { IfOk result (λ o. o ≡ group_of (option_copied by.entry) self.now) }
    {
        match by {
            Some(name) => key_of_field(alloc, &self.row, name.as_str().as_bytes()),
            None => match &self.key {
                Some(key) => Ok(Some(key.clone()?)),
                None => Ok(None),
            },
        }
    }
}
