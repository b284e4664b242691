//! Counts and sums: of streams, of tables, and by windows.
ghost use Rattle.std.specs.Prelude.{◌≡◌, ◌≤◌, [], ◌∷◌, Some, None, cond, fold, map, is_none, option_copied, OnOk, IfOk};
ghost use Rattle.ks_def_runs.specs.Bytes.{by_bytes};
ghost use Rattle.ks_def_runs.specs.FinMap as fin;
ghost use Rattle.ks_query.specs.Streams.{grouped as in_groups};
ghost use Rattle.ks_query.specs.Windows.{by_window};
ghost use Rattle.ks_query.specs.Aggregates.{agg_row as row_of_agg};
ghost use Rattle.ks_query.specs.Query.{add_to, map_values, aggregate, item_rows, in_windows, grouped_rows as rows_in_groups};

use crate::item::Item;
use crate::{Groups, Rows, Spans};
use ks_agg::{agg_row, stream_add};
use ks_record::{Key, Name};
use ks_row::{Row, key_of_field};
use ks_window::starts;
use std::alloc::{AllocError, Global};

fn add_row(
    groups: &mut Groups,
    field: Option<&Name>,
    group: Key,
    row: &Row,
) -> Result<(), AllocError>
    ensures { OnOk result (groups.new ≡ add_to {R = by_bytes} (option_copied field.entry) groups.old
        (group, row.now)) }
{
    let agg = stream_add(field, groups.get(&group), row);
    groups.put(group, agg)
}

// The groups as rows.
fn shown(alloc: Global, count: bool, groups: &Groups) -> Result<Rows, AllocError>
    ensures { IfOk result (λ t. t ≡ map_values (λ a. Some (row_of_agg count a)) groups.now) }
{
    let list = groups.list(alloc)?;
    let mut rows = Rows::new(alloc);
    let mut rest = list.as_slice();
    while let [(group, agg), more @ ..] = rest {
        rows.set(group.clone()?, Some(agg_row(alloc, count, *agg)?))?;
        rest = more;
    }
    Ok(rows)
}

fn group_items(
    alloc: Global,
    by: Option<&Name>,
    field: Option<&Name>,
    items: &[Item],
) -> Result<Groups, AllocError>
    ensures { IfOk result (λ m. m ≡ fold (add_to {R = by_bytes} (option_copied field.entry))
        fin.empty (item_rows (in_groups (option_copied by.entry) items.now))) }
{
    let mut groups = Groups::new(alloc);
    let mut rest = items;
    while let [item, more @ ..] = rest {
        if let Some(group) = item.group(alloc, by)? {
            add_row(&mut groups, field, group, item.row())?;
        }
        rest = more;
    }
    Ok(groups)
}

/// The count or sum of a stream: a field for a sum, none for a count.
pub fn aggregate_items(
    alloc: Global,
    by: Option<&Name>,
    field: Option<&Name>,
    items: &[Item],
) -> Result<Rows, AllocError>
    ensures { IfOk result (λ t. t ≡ aggregate {R = by_bytes} (option_copied field.entry)
        (item_rows (in_groups (option_copied by.entry) items.now))) }
{
    let groups = group_items(alloc, by, field, items)?;
    shown(alloc, field.is_none(), &groups)
}

fn group_rows(
    alloc: Global,
    by: &[u8],
    field: Option<&Name>,
    rows: &Rows,
) -> Result<Groups, AllocError>
    ensures { IfOk result (λ m. m ≡ fold (add_to {R = by_bytes} (option_copied field.entry))
        fin.empty (rows_in_groups by.now (fin.entries rows.now))) }
{
    let list = rows.list(alloc)?;
    let mut groups = Groups::new(alloc);
    let mut rest = list.as_slice();
    while let [(_, row), more @ ..] = rest {
        if let Some(group) = key_of_field(alloc, row, by)? {
            add_row(&mut groups, field, group, row)?;
        }
        rest = more;
    }
    Ok(groups)
}

/// The count or sum of a table, by the keys that a field gives.
pub fn aggregate_rows(
    alloc: Global,
    by: &[u8],
    field: Option<&Name>,
    rows: &Rows,
) -> Result<Rows, AllocError>
    ensures { IfOk result (λ t. t ≡ aggregate {R = by_bytes} (option_copied field.entry)
        (rows_in_groups by.now (fin.entries rows.now))) }
{
    let groups = group_rows(alloc, by, field, rows)?;
    shown(alloc, field.is_none(), &groups)
}

// One more item in each of these windows.
fn count_in(spans: &mut Spans, group: &Key, starts: &[u64], row: &Row) -> Result<(), AllocError>
    ensures { OnOk result (spans.new ≡ fold (add_to {R = by_window} None) spans.old
        (map (λ s. ((group.now, s), row.now)) starts.now)) }
{
    let mut rest = starts;
    while let [start, more @ ..] = rest {
        let window = (group.clone()?, *start);
        let agg = stream_add(None, spans.get(&window), row);
        spans.put(window, agg)?;
        rest = more;
    }
    Ok(())
}

/// The counts of a stream by windows, in milliseconds.
pub fn count_windows(
    alloc: Global,
    by: Option<&Name>,
    size: u64,
    advance: u64,
    items: &[Item],
) -> Result<Spans, AllocError>
    requires some { 1 ≤ advance }
    requires most { advance ≤ size }
    ensures { IfOk result (λ m. m ≡ fold (add_to {R = by_window} None) fin.empty
        (in_windows (record { size = size; advance = advance; grace = 0 })
        (in_groups (option_copied by.entry) items.now))) }
{
    let mut spans = Spans::new(alloc);
    let mut rest = items;
    while let [item, more @ ..] = rest {
        if let Some(group) = item.group(alloc, by)? {
            let starts = starts(alloc, item.time(), size, advance)?;
            count_in(&mut spans, &group, &starts, item.row())?;
        }
        rest = more;
    }
    Ok(spans)
}
