//! The tables that are printed.
ghost use Rattle.std.specs.Prelude.{◌≡◌, true, map, IfOk};
ghost use Rattle.ks_expr.specs.Eval.{same_bytes};
ghost use Rattle.ks_def_runs.specs.FinMap as fin;
ghost use Rattle.ks_plan.specs.Plan.{name_place};
ghost use Rattle.ks_query.specs.Streams.{some_of};
ghost use Rattle.ks_query.specs.Printed.{plain_row, window_row};
ghost use Rattle.ks_query.specs.Aggregates.{agg_row as row_of};
ghost use Rattle.ks_oracle.specs.Found.{answers_of};
ghost use Rattle.ks_oracle.specs.Printing.{names_of, rows_for, table_named as named};

use crate::answers::{Answer, rows_at, spans_at};
use crate::{Rows, Spans};
use ks_agg::agg_row;
use ks_query::{Table, TableRow};
use ks_record::{Blob, Seq};
use ks_topo::{Node, Wiring};
use std::alloc::{AllocError, Global};

fn plain_rows(alloc: Global, rows: &Rows) -> Result<Vec<TableRow>, AllocError>
    ensures { IfOk result (λ v. v.items ≡ map plain_row (fin.entries rows.now)) }
{
    let list = rows.list(alloc)?;
    let mut printed = Vec::new(alloc);
    let mut rest = list.as_slice();
    while let [(key, row), more @ ..] = rest {
        printed.push(TableRow {
            key: key.clone()?,
            start: None,
            row: row.clone()?,
        })?;
        rest = more;
    }
    Ok(printed)
}

fn window_rows(alloc: Global, spans: &Spans) -> Result<Vec<TableRow>, AllocError>
    ensures { IfOk result (λ v. v.items ≡ map window_row
        (map (λ e. (e.0, row_of true e.1)) (fin.entries spans.now))) }
{
    let list = spans.list(alloc)?;
    let mut printed = Vec::new(alloc);
    let mut rest = list.as_slice();
    while let [(window, agg), more @ ..] = rest {
        printed.push(TableRow {
            key: window.0.clone()?,
            start: Some(window.1),
            row: agg_row(alloc, true, *agg)?,
        })?;
        rest = more;
    }
    Ok(printed)
}

fn counted_rows(alloc: Global, found: &[Answer], n: usize) -> Result<Vec<TableRow>, AllocError>
    ensures { IfOk result (λ v. v.items ≡ map window_row
        (fin.entries ((answers_of found.now).windows n))) }
{
    let empty = Spans::new(alloc);
    window_rows(alloc, spans_at(found, n, &empty))
}

fn printed_rows(
    alloc: Global,
    wiring: Wiring,
    found: &[Answer],
    n: usize,
) -> Result<Vec<TableRow>, AllocError>
    ensures { IfOk result (λ v. v.items ≡ rows_for (answers_of found.now) wiring n) }
{
    match wiring {
        Wiring::Windowed { .. } => counted_rows(alloc, found, n),
        _ => {
            let empty = Rows::new(alloc);
            plain_rows(alloc, rows_at(found, n, &empty))
        }
    }
}

fn is_named(node: &Node, name: &[u8]) -> bool
    ensures { result ≡ same_bytes node.now.name name.now }
{
    node.name.as_str().as_bytes().cmp(name).is_eq()
}

// The place of a name among the nodes; past all where none has it.
fn place_of(nodes: &[Node], name: &[u8]) -> usize
    ensures { result ≡ name_place (names_of nodes.now) name.now }
{
    let mut place = 0;
    for node in nodes {
        if is_named(node, name) {
            return place;
        }
        place += 1;
    }
    place
}

// The table of a name; none where no node has it.
fn table_named(
    alloc: Global,
    nodes: &[Node],
    found: &[Answer],
    name: &Blob,
) -> Result<Option<Table>, AllocError>
    ensures { IfOk result (λ o. o ≡ named nodes.now (answers_of found.now) name.now) }
{
    let place = place_of(nodes, name.as_slice());
    let Some(node) = nodes.get(place) else {
        return Ok(None);
    };
    let rows = printed_rows(alloc, node.wiring, found, place)?;
    Ok(Some(Table {
        name: node.name.clone()?,
        rows: Seq::of(rows),
    }))
}

/// The tables of these names.
pub fn tables_named(
    alloc: Global,
    nodes: &[Node],
    found: &[Answer],
    names: &[Blob],
) -> Result<Vec<Table>, AllocError>
    ensures { IfOk result (λ v. v.items ≡ some_of (named nodes.now (answers_of found.now))
        names.now) }
{
    let mut tables = Vec::new(alloc);
    let mut rest = names;
    while let [name, more @ ..] = rest {
        if let Some(table) = table_named(alloc, nodes, found, name)? {
            tables.push(table)?;
        }
        rest = more;
    }
    Ok(tables)
}
