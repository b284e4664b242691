//! What windowed counts tell their changelogs.
ghost use Rattle.std.specs.Prelude.{◌≡◌, ◌++◌, IfOk, OnOk, map};
ghost use Rattle.ks_def_lookups.specs.Windows.{counted};
ghost use Rattle.ks_task_nodes.specs.Nodes.{node_view};
ghost use Rattle.ks_task_nodes.specs.Records.{arrival_of};
ghost use Rattle.ks_task_values.specs.Values.{items_in};
ghost use Rattle.ks_task_processing.specs.Steps.{counts_at, at_part};
ghost use Rattle.ks_cache.specs.Changelogs.{stores_in};

use ks_cache::{Changelog, TaskStore};
use ks_record::{Key, PartId, PlacedRecords, RecordList};
use ks_task_nodes::{HoppingWindow, Processor, ProcessorNode};
use ks_task_values::{NodeValues, Step, item_into};
use ks_window::count;
use std::alloc::{AllocError, Global};

fn count_in(
    alloc: Global,
    changelogs: &[Changelog],
    number: u16,
    key: &Key,
    time: u64,
    window: &HoppingWindow,
) -> Result<(u64, RecordList), AllocError>
    ensures late { IfOk result (λ r. r.0 ≡ (counted window.now (stores_in changelogs.now number)
        key.now time).late) }
    ensures recs { IfOk result (λ r. r.1
        ≡ (counted window.now (stores_in changelogs.now number) key.now time).recs) }
{
    let mut rest = changelogs;
    while let [changelog, more @ ..] = rest {
        if number == changelog.topic {
            return count(alloc, &changelog.store, key, time, window.window());
        }
        rest = more;
    }
    let none = TaskStore::new(alloc, 0);
    let counted = count(alloc, &none, key, time, window.window());
    drop(none);
    counted
}

/// How many pairs of a windowed count's item and a window were late, and the records for its changelog. Want of memory is the one error.
pub fn count_of(
    alloc: Global,
    step: &Step<'_>,
    node: &ProcessorNode<'_>,
    values: &NodeValues<'_, '_>,
) -> Result<(u64, RecordList), AllocError>
    ensures late { IfOk result (λ r. r.0 ≡ (counts_at (stores_in step.now.changelogs.now)
        (arrival_of step.now.stamped.now) (items_in values.now) (node_view node.now)).late) }
    ensures recs { IfOk result (λ r. r.1
        ≡ (counts_at (stores_in step.now.changelogs.now) (arrival_of step.now.stamped.now)
        (items_in values.now) (node_view node.now)).recs) }
{
    let topics = node.topics;
    match &node.processor {
        Processor::WindowedCount {
            from,
            window,
            through,
            ..
        } => {
            if !topics.is_own {
                return Ok((0, RecordList::new(alloc)));
            }
            let items = values.items;
            let Some(item) = item_into(alloc, items, topics.number, *from, *through, step.stamped)?
            else {
                return Ok((0, RecordList::new(alloc)));
            };
            let logs = step.changelogs;
            match &item.key {
                Some(key) => {
                    let counted = count_in(alloc, logs, topics.changelog, key, item.time, window);
                    drop(item);
                    counted
                }
                None => {
                    drop(item);
                    Ok((0, RecordList::new(alloc)))
                }
            }
        }
        _ => Ok((0, RecordList::new(alloc))),
    }
}

/// The records at the end of others, in a partition of a changelog. Want of memory is the one error.
pub fn push_recs(
    out: &mut PlacedRecords,
    topic: u16,
    part: u8,
    recs: &RecordList,
) -> Result<(), AllocError>
    ensures { OnOk result (out.new ≡ out.old ++ map (at_part topic part) recs.now) }
{
    for place in 0..recs.len() {
        out.push(PartId { topic, part }, recs.get(place))?;
    }
    Ok(())
}
