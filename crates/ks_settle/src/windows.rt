//! The windows that a windowed count's changelog keeps.
ghost use Rattle.std.specs.Prelude.{◌≡◌, ◌+◌, ◌≤◌, ℕ, [], map, true, IfOk, OnOk, option_map};
ghost use Rattle.ks_plan.specs.Layout.{up_to};
ghost use Rattle.ks_history.specs.State.{IsPart};
ghost use Rattle.ks_cluster.specs.View.{ClusterView, setup_of, state_of};
ghost use Rattle.ks_query.specs.Printed.{window_row};
ghost use Rattle.ks_query.specs.Aggregates.{agg_row as total_row};
ghost use Rattle.ks_wire.specs.Reading.{agg_from, window_key_from};
ghost use Rattle.ks_settle.specs.Rows.{part_in};
ghost use Rattle.ks_settle.specs.Windows.{put_window, put_pairs as with_pairs, put_parts as with_parts};

use crate::rows::{read_total, stored_pairs};
use ks_cluster::{Cluster, Work};
use ks_query::TableRow;
use ks_record::{Blob, Key, PartId};
use ks_row::Row;
use ks_wire::read_window_key;
use std::alloc::{AllocError, Global};
use std::collections::BTreeMap;

// With the row at the window; without one of them nothing changes.
fn put(
    windows: &mut BTreeMap<(Key, u64), Row>,
    window: Option<(Key, u64)>,
    row: Option<Row>,
) -> Result<(), AllocError>
    ensures { OnOk result (windows.new.entries ≡ put_window windows.old.entries window row) }
{
    match (window, row) {
        (Some(window), Some(row)) => {
            windows.insert(window, row)?;
            Ok(())
        }
        _ => Ok(()),
    }
}

fn put_pair(
    alloc: Global,
    pair: &(Blob, Blob),
    windows: &mut BTreeMap<(Key, u64), Row>,
) -> Result<(), AllocError>
    ensures { OnOk result (windows.new.entries ≡ put_window windows.old.entries
        (window_key_from pair.now.0) (option_map (total_row true) (agg_from pair.now.1))) }
{
    let window = read_window_key(alloc, pair.0.as_slice())?;
    let row = read_total(alloc, true, pair.1.as_slice())?;
    put(windows, window, row)
}

fn put_pairs(
    alloc: Global,
    pairs: &[(Blob, Blob)],
    windows: &mut BTreeMap<(Key, u64), Row>,
) -> Result<(), AllocError>
    ensures { OnOk result (windows.new.entries ≡ with_pairs windows.old.entries pairs.now) }
{
    let mut rest = pairs;
    while let [first, more @ ..] = rest {
        put_pair(alloc, first, windows)?;
        rest = more;
    }
    Ok(())
}

// Those of all partitions, one after another.
fn put_parts<W: Work>(
    alloc: Global,
    cluster: &Cluster<W>,
    topic: u16,
    parts: u8,
    seed: u64,
    windows: &mut BTreeMap<(Key, u64), Row>,
) -> Result<(), AllocError>
    requires { (part : ℕ) → part + 1 ≤ parts → IsPart (setup_of W.plan cluster.now)
        (part_in topic part) }
    ensures { OnOk result (windows.new.entries
        ≡ with_parts (state_of W.plan cluster.now) topic windows.old.entries (up_to parts)) }
{
    for part in 0..parts {
        let pairs = stored_pairs(alloc, cluster, PartId { topic, part }, seed)?;
        put_pairs(alloc, pairs.as_slice(), windows)?;
    }
    Ok(())
}

// The rows as they are printed.
fn rows_of(alloc: Global, windows: &BTreeMap<(Key, u64), Row>) -> Result<Vec<TableRow>, AllocError>
    ensures { IfOk result (λ v. v.items ≡ map window_row windows.now.entries) }
{
    let mut rows = Vec::new(alloc);
    for (window, row) in windows {
        rows.push(TableRow {
            key: window.0.clone()?,
            start: Some(window.1),
            row: row.clone()?,
        })?;
    }
    Ok(rows)
}

/// The windows that a windowed count keeps, over all partitions of its changelog, as they are printed: in order of key bytes, then of
/// starts; they are read by hashes of keys that begin with this seed. A pair that spells no window, as that of the greatest timestamp,
/// counts as absent. `Err` only where memory ran out.
pub fn window_rows<W: Work>(
    alloc: Global,
    cluster: &Cluster<W>,
    topic: u16,
    parts: u8,
    seed: u64,
) -> Result<Vec<TableRow>, AllocError>
    requires parts { (part : ℕ) → part + 1 ≤ parts
        → IsPart (setup_of W.plan cluster.now) (part_in topic part) }
    ensures { IfOk result (λ v. v.items ≡ map window_row
        (with_parts (state_of W.plan cluster.now) topic [] (up_to parts))) }
{
    let mut windows = BTreeMap::new(alloc);
    put_parts(alloc, cluster, topic, parts, seed, &mut windows)?;
    rows_of(alloc, &windows)
}
