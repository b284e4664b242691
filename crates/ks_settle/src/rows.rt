//! The rows that a changelog keeps.
ghost use Rattle.std.specs.Prelude.{◌≡◌, ◌+◌, ◌≤◌, ℕ, List, [], map, IfOk, OnOk, option_map};
ghost use Rattle.std.specs.Thread.{IsSync};
ghost use Rattle.ks_record.specs.Texts.{key_from};
ghost use Rattle.ks_plan.specs.Drafts.{op_view};
ghost use Rattle.ks_plan.specs.Layout.{up_to};
ghost use Rattle.ks_history.specs.State.{IsPart};
ghost use Rattle.ks_cluster.specs.View.{ClusterView, setup_of, state_of};
ghost use Rattle.ks_query.specs.Printed.{plain_row};
ghost use Rattle.ks_wire.specs.Reading.{agg_from};
ghost use Rattle.ks_query.specs.Aggregates.{agg_row as total_row};
ghost use Rattle.ks_settle.specs.Rows.{op_as, row_by, push_row, push_pairs as with_pairs, put_pairs, pairs_in, part_in, put_parts as with_parts, parts_from};

use crate::merging::merge_rows;
use ks_agg::agg_row;
use ks_cluster::{Cluster, Work};
use ks_query::TableRow;
use ks_record::{Blob, Key, PartId};
use ks_row::{Row, decode};
use ks_store::{KvStore, OrderedStore, restore};
use ks_topo::Op;
use ks_wire::read_agg;
use std::alloc::{AllocError, Global};
use std::thread::{Threads, join};

/// What a changelog's rows show of what it keeps at a key.
#[derive(Clone, Copy)]
pub enum StoredForm {
    /// The row that is kept.
    Plain,
    /// How many members an aggregate has.
    Members,
    /// What an aggregate adds up to.
    Total,
}

// A node's changelog: its topic, what its rows show, and what the hashes of its keys begin with.
#[derive(Clone, Copy)]
struct ShownLog {
    topic: u16,
    form: StoredForm,
    seed: u64,
}

/// What a node's changelog shows, by the node's operation.
pub fn form_of(op: &Op) -> StoredForm
    ensures { (bytes : List ℕ) → row_by (op_as result) bytes ≡ row_by (op_view op.now) bytes }
{
    match op {
        Op::Count { .. } => StoredForm::Members,
        Op::Sum { .. } => StoredForm::Total,
        _ => StoredForm::Plain,
    }
}

/// The row of a count or of a sum. `Err` only where memory ran out.
pub fn read_total(alloc: Global, count: bool, bytes: &[u8]) -> Result<Option<Row>, AllocError>
    ensures { IfOk result (λ o. o ≡ option_map (total_row count) (agg_from bytes.now)) }
{
    match read_agg(bytes) {
        Some(agg) => Ok(Some(agg_row(alloc, count, agg)?)),
        None => Ok(None),
    }
}

/// The row that kept bytes are shown as; None where they spell nothing of their kind. `Err` only where memory ran out.
pub fn read_row(alloc: Global, shown: StoredForm, bytes: &[u8]) -> Result<Option<Row>, AllocError>
    ensures { IfOk result (λ o. o ≡ row_by (op_as shown) bytes.now) }
{
    match shown {
        StoredForm::Plain => decode(alloc, bytes),
        StoredForm::Members => read_total(alloc, true, bytes),
        StoredForm::Total => read_total(alloc, false, bytes),
    }
}

fn push(rows: &mut Vec<TableRow>, key: Option<Key>, row: Option<Row>) -> Result<(), AllocError>
    ensures { OnOk result (rows.new.items ≡ push_row rows.old.items key row) }
{
    match (key, row) {
        (Some(key), Some(row)) => {
            rows.push(TableRow {
                key,
                start: None,
                row,
            })?;
            Ok(())
        }
        _ => Ok(()),
    }
}

fn push_pair(
    alloc: Global,
    shown: StoredForm,
    pair: &(Blob, Blob),
    rows: &mut Vec<TableRow>,
) -> Result<(), AllocError>
    ensures { OnOk result (rows.new.items ≡ push_row rows.old.items (key_from pair.now.0)
        (row_by (op_as shown) pair.now.1)) }
{
    let key = Key::of(alloc, pair.0.as_slice())?;
    let row = read_row(alloc, shown, pair.1.as_slice())?;
    push(rows, key, row)
}

fn push_pairs(
    alloc: Global,
    shown: StoredForm,
    pairs: &[(Blob, Blob)],
    rows: &mut Vec<TableRow>,
) -> Result<(), AllocError>
    ensures { OnOk result (rows.new.items ≡ with_pairs (op_as shown) rows.old.items pairs.now) }
{
    let mut rest = pairs;
    while let [first, more @ ..] = rest {
        push_pair(alloc, shown, first, rows)?;
        rest = more;
    }
    Ok(())
}

/// What the decided records of a changelog's partition leave, in order of key bytes, read by hashes of keys that begin with this seed.
/// `Err` only where memory ran out.
pub fn stored_pairs<W: Work>(
    alloc: Global,
    cluster: &Cluster<W>,
    part: PartId,
    seed: u64,
) -> Result<Vec<(Blob, Blob)>, AllocError>
    requires { IsPart (setup_of W.plan cluster.now) part }
    ensures { IfOk result (λ v. v.items ≡ pairs_in (state_of W.plan cluster.now) part) }
{
    let recs = cluster.decided(alloc, part)?;
    let mut store = OrderedStore::new(alloc, seed);
    restore(&mut store, recs.as_slice())?;
    store.prefix(&[])
}

// The rows of a changelog's partition, in order of key bytes.
fn rows_in<W: Work>(
    alloc: Global,
    cluster: &Cluster<W>,
    log: ShownLog,
    part: u8,
) -> Result<Vec<TableRow>, AllocError>
    requires { IsPart (setup_of W.plan cluster.now) (part_in log.topic part) }
    ensures { IfOk result (λ v. v.items ≡ map plain_row
        (put_pairs (op_as log.form) [] (pairs_in (state_of W.plan cluster.now)
        (part_in log.topic part)))) }
{
    let pairs = stored_pairs(
        alloc,
        cluster,
        PartId {
            topic: log.topic,
            part,
        },
        log.seed,
    )?;
    let mut rows = Vec::with_capacity(alloc, pairs.len())?;
    push_pairs(alloc, log.form, pairs.as_slice(), &mut rows)?;
    Ok(rows)
}

// The rows of so many partitions from one on: each half is read beside the other, and the two are put together.
fn rows_from<R: Threads + Sync, W: Work + Sync>(
    rt: &R,
    alloc: Global,
    cluster: &Cluster<W>,
    log: ShownLog,
    from: u8,
    count: u8,
) -> Result<Vec<TableRow>, AllocError>
    requires last { from + count ≤ 255 }
    requires parts { (part : ℕ) → part + 1 ≤ from + count
        → IsPart (setup_of W.plan cluster.now) (part_in log.topic part) }
    ensures { IfOk result (λ v. v.items ≡ map plain_row
        (with_parts (op_as log.form) (state_of W.plan cluster.now) log.topic [] (parts_from from count))) }
{
    if count == 0 {
        return Ok(Vec::new(alloc));
    }
    if count == 1 {
        return rows_in(alloc, cluster, log, from);
    }
    let half = count / 2;
    let (middle, rest) = (from + half, count - half);
    let (earlier, later) = join(
        rt,
        || -> Result<Vec<TableRow>, AllocError>
            requires { IsSync R.row × IsSync W.row × (from + half ≤ 255)
                × ((part : ℕ) → part + 1 ≤ from + half
                → IsPart (setup_of W.plan cluster.now) (part_in log.topic part)) }
            ensures { IfOk result (λ v. v.items
                ≡ map plain_row (with_parts (op_as log.form) (state_of W.plan cluster.entry.now)
                log.topic [] (parts_from from half))) }
        { rows_from(rt, alloc, cluster, log, from, half) },
        || -> Result<Vec<TableRow>, AllocError>
            requires { IsSync R.row × IsSync W.row × (middle + rest ≤ 255)
                × ((part : ℕ) → part + 1 ≤ middle + rest
                → IsPart (setup_of W.plan cluster.now) (part_in log.topic part)) }
            ensures { IfOk result (λ v. v.items
                ≡ map plain_row (with_parts (op_as log.form) (state_of W.plan cluster.entry.now)
                log.topic [] (parts_from middle rest))) }
        { rows_from(rt, alloc, cluster, log, middle, rest) },
    );
    merge_rows(alloc, earlier?, later?)
}

/// The rows that a node keeps, over all partitions of its changelog, as they are printed and in order of key bytes. Partitions are
/// read side by side where threads can be made, by hashes of keys that begin with this seed; where two have a key, the row is that of the
/// later. `Err` only where memory ran out.
pub fn table_rows<R: Threads + Sync, W: Work + Sync>(
    rt: &R,
    alloc: Global,
    cluster: &Cluster<W>,
    op: &Op,
    topic: u16,
    parts: u8,
    seed: u64,
) -> Result<Vec<TableRow>, AllocError>
    requires parts { (part : ℕ) → part + 1 ≤ parts
        → IsPart (setup_of W.plan cluster.now) (part_in topic part) }
    ensures { IfOk result (λ v. v.items ≡ map plain_row
        (with_parts (op_view op.now) (state_of W.plan cluster.now) topic [] (up_to parts))) }
{
    let log = ShownLog {
        topic,
        form: form_of(op),
        seed,
    };
    rows_from(rt, alloc, cluster, log, 0, parts)
}
