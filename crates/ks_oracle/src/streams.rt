//! The items of stream nodes.
ghost use Rattle.std.specs.Prelude.{◌≡◌, ◌++◌, [], Some, None, cond, nat_eq, OnOk, IfOk};
ghost use Rattle.ks_expr.specs.Terms.{test_of, set_of};
ghost use Rattle.ks_query.specs.Streams.{with_some, some_of, item_of, filter_item, map_item, rekey_item};
ghost use Rattle.ks_query.specs.Query.{of_topic};

use crate::item::Item;
use crate::record::JobRecord;
use ks_expr::{Pred, Proj};
use ks_record::Name;
use std::alloc::{AllocError, Global};

fn push_some(found: &mut Vec<Item>, item: Option<Item>) -> Result<(), AllocError>
    ensures { OnOk result (found.new.items ≡ found.old.items ++ with_some item []) }
{
    if let Some(item) = item {
        found.push(item)?;
    }
    Ok(())
}

/// The items of a source: the records of its topic that have rows, in order.
#[tactic(auto, using(crate::proofs::Lists::some_pushed))]
pub fn source_items(
    alloc: Global,
    topic: u16,
    records: &[JobRecord],
) -> Result<Vec<Item>, AllocError>
    ensures { IfOk result (λ v. v.items ≡ some_of item_of (of_topic topic records.now)) }
{
    let mut found = Vec::new(alloc);
    let mut rest = records;
    while let [record, more @ ..] = rest {
        if record.topic() == topic {
            push_some(&mut found, Item::of(record)?)?;
        }
        rest = more;
    }
    Ok(found)
}

/// The items whose rows meet the predicate.
#[tactic(auto, using(crate::proofs::Lists::some_pushed))]
pub fn filtered_items(alloc: Global, test: &Pred, items: &[Item]) -> Result<Vec<Item>, AllocError>
    ensures { IfOk result (λ v. v.items ≡ some_of (filter_item (test_of test.now)) items.now) }
{
    let mut found = Vec::new(alloc);
    let mut rest = items;
    while let [item, more @ ..] = rest {
        push_some(&mut found, item.where_holds(test)?)?;
        rest = more;
    }
    Ok(found)
}

/// The items with their projected rows, of those that have one.
#[tactic(auto, using(crate::proofs::Lists::some_pushed))]
pub fn mapped_items(alloc: Global, set: &Proj, items: &[Item]) -> Result<Vec<Item>, AllocError>
    ensures { IfOk result (λ v. v.items ≡ some_of (map_item (set_of set.now)) items.now) }
{
    let mut found = Vec::new(alloc);
    let mut rest = items;
    while let [item, more @ ..] = rest {
        push_some(&mut found, item.with_row_of(alloc, set)?)?;
        rest = more;
    }
    Ok(found)
}

/// The items under the keys that a field gives, of those that it gives one.
#[tactic(auto, using(crate::proofs::Lists::some_pushed))]
pub fn rekeyed_items(alloc: Global, name: &Name, items: &[Item]) -> Result<Vec<Item>, AllocError>
    ensures { IfOk result (λ v. v.items ≡ some_of (rekey_item name.now) items.now) }
{
    let mut found = Vec::new(alloc);
    let mut rest = items;
    while let [item, more @ ..] = rest {
        push_some(&mut found, item.with_key_of(alloc, name)?)?;
        rest = more;
    }
    Ok(found)
}
