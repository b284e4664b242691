//! The answers of nodes.
ghost use Rattle.std.specs.Prelude.{◌≡◌, suc, [], length, map, fold, cond, option_map, unwrap_or, is_none, Some, None, IfOk, OnOk};
ghost use Rattle.ks_def_runs.specs.FinMap as fin;
ghost use Rattle.ks_def_runs.specs.Bytes.{by_bytes};
ghost use Rattle.ks_def_runs.specs.Table.{write};
ghost use Rattle.ks_expr.specs.Eval.{holds, project};
ghost use Rattle.ks_plan.specs.Drafts.{op_view};
ghost use Rattle.ks_query.specs.Streams.{some_of, filter_item, map_item, rekey_item, grouped};
ghost use Rattle.ks_query.specs.Windows.{by_window};
ghost use Rattle.ks_query.specs.Query.{no_answers, map_values, aggregate, item_rows, grouped_rows, in_windows, add_to, key_join, foreign_join};
ghost use Rattle.ks_oracle.specs.declared.answers.Answer.TheVariants.{Items, Table as TableFound, Windows};
ghost use Rattle.ks_oracle.specs.Nodes.{test_in as has_test, set_in as has_set, key_in as has_key, group_in as has_group, window_in as has_window, join_in as has_join, foreign_in as has_foreign, node_kind};
ghost use Rattle.ks_oracle.specs.Found.{answers_of, answered, counted, answer_maybe, answer_all, stream_found, table_found};

use crate::aggregates::{aggregate_items, aggregate_rows, count_windows};
use crate::item::Item;
use crate::joins::{foreign_rows, joined_rows};
use crate::parts::{foreign_in, group_in, join_in, key_in, set_in, test_in, window_in};
use crate::record::JobRecord;
use crate::streams::{filtered_items, mapped_items, rekeyed_items, source_items};
use crate::tables::{filtered_rows, latest_rows, mapped_rows};
use crate::{Rows, Spans};
use ks_record::Seq;
use ks_topo::{Node, Op, Wiring};
use std::alloc::{AllocError, Global};

/// What a node gives: the items of a stream, a table, or counts by windows.
#[derive(Drop)]
pub enum Answer {
    /// Of no built node.
    Nothing,
    Items(Seq<Item>),
    Table(Rows),
    Windows(Spans),
}

/// The items of a node among those that have answers; none where it is no stream.
pub fn items_at(found: &[Answer], n: u8) -> &[Item]
    ensures { result.now ≡ (answers_of found.now).items n }
{
    match found.get(n as usize) {
        Some(Answer::Items(items)) => items.as_slice(),
        _ => &[],
    }
}

/// The table of a node among those that have answers; an empty one where it is no table.
pub fn rows_at<'a>(found: &'a [Answer], n: usize, empty: &'a Rows) -> &'a Rows
    requires { empty.now ≡ fin.empty }
    ensures { result.now ≡ (answers_of found.now).tables n }
{
    match found.get(n) {
        Some(Answer::Table(rows)) => rows,
        _ => empty,
    }
}

/// The counts of a node among those that have answers; empty ones where it counts by no windows.
#[tactic(auto, using(crate::proofs::Founds::counted_none))]
pub fn spans_at<'a>(found: &'a [Answer], n: usize, empty: &'a Spans) -> &'a Spans
    requires { empty.now ≡ fin.empty }
    ensures { counted result.now ≡ (answers_of found.now).windows n }
{
    match found.get(n) {
        Some(Answer::Windows(spans)) => spans,
        _ => empty,
    }
}

fn filter_stream(alloc: Global, op: &Op, items: &[Item]) -> Result<Answer, AllocError>
    ensures { IfOk result (λ x. x ≡ answered (option_map
        (λ t. Items (some_of (filter_item t) items.now)) (has_test (op_view op.now)))) }
{
    match test_in(op) {
        Some(test) => Ok(Answer::Items(Seq::of(filtered_items(alloc, test, items)?))),
        None => Ok(Answer::Nothing),
    }
}

fn map_stream(alloc: Global, op: &Op, items: &[Item]) -> Result<Answer, AllocError>
    ensures { IfOk result (λ x. x ≡ answered (option_map
        (λ s. Items (some_of (map_item s) items.now)) (has_set (op_view op.now)))) }
{
    match set_in(op) {
        Some(set) => Ok(Answer::Items(Seq::of(mapped_items(alloc, set, items)?))),
        None => Ok(Answer::Nothing),
    }
}

fn rekey_stream(alloc: Global, op: &Op, items: &[Item]) -> Result<Answer, AllocError>
    ensures { IfOk result (λ x. x ≡ answered (option_map
        (λ k. Items (some_of (rekey_item k) items.now)) (has_key (op_view op.now)))) }
{
    match key_in(op) {
        Some(name) => Ok(Answer::Items(Seq::of(rekeyed_items(alloc, name, items)?))),
        None => Ok(Answer::Nothing),
    }
}

fn filter_table(alloc: Global, op: &Op, rows: &Rows) -> Result<Answer, AllocError>
    ensures { IfOk result (λ x. x ≡ answered (option_map
        (λ t. TableFound (map_values (λ v. cond (holds t v) (Some v) None) rows.now))
        (has_test (op_view op.now)))) }
{
    match test_in(op) {
        Some(test) => Ok(Answer::Table(filtered_rows(alloc, test, rows)?)),
        None => Ok(Answer::Nothing),
    }
}

fn map_table(alloc: Global, op: &Op, rows: &Rows) -> Result<Answer, AllocError>
    ensures { IfOk result (λ x. x ≡ answered (option_map
        (λ s. TableFound (map_values (λ v. project s (Some v) None) rows.now))
        (has_set (op_view op.now)))) }
{
    match set_in(op) {
        Some(set) => Ok(Answer::Table(mapped_rows(alloc, set, rows)?)),
        None => Ok(Answer::Nothing),
    }
}

fn aggregate_stream(alloc: Global, op: &Op, items: &[Item]) -> Result<Answer, AllocError>
    ensures { IfOk result (λ x. x ≡ answered (option_map
        (λ g. TableFound (aggregate {R = by_bytes} g.1 (item_rows (grouped g.0 items.now))))
        (has_group (op_view op.now)))) }
{
    match group_in(op) {
        Some((by, field)) => Ok(Answer::Table(aggregate_items(alloc, by, field, items)?)),
        None => Ok(Answer::Nothing),
    }
}

fn aggregate_table(alloc: Global, op: &Op, rows: &Rows) -> Result<Answer, AllocError>
    ensures { IfOk result (λ x. x ≡ answered (option_map
        (λ g. TableFound (aggregate {R = by_bytes} g.1
        (grouped_rows (unwrap_or g.0 []) (fin.entries rows.now)))) (has_group (op_view op.now)))) }
{
    match group_in(op) {
        Some((Some(by), field)) => Ok(Answer::Table(aggregate_rows(
            alloc,
            by.as_str().as_bytes(),
            field,
            rows,
        )?)),
        Some((None, field)) => Ok(Answer::Table(aggregate_rows(alloc, &[], field, rows)?)),
        None => Ok(Answer::Nothing),
    }
}

fn count_stream(alloc: Global, op: &Op, items: &[Item]) -> Result<Answer, AllocError>
    ensures { IfOk result (λ x. x ≡ answered (option_map
        (λ g. Windows (fold (add_to {R = by_window} None) fin.empty
        (in_windows g.1 (grouped g.0 items.now)))) (has_window (op_view op.now)))) }
{
    match window_in(op) {
        Some((by, hops)) => Ok(Answer::Windows(count_windows(
            alloc,
            by,
            hops.size,
            hops.advance,
            items,
        )?)),
        None => Ok(Answer::Nothing),
    }
}

fn join_tables(alloc: Global, op: &Op, left: &Rows, right: &Rows) -> Result<Answer, AllocError>
    ensures { IfOk result (λ x. x ≡ answered (option_map
        (λ j. TableFound (key_join j.0 j.1 left.now right.now)) (has_join (op_view op.now)))) }
{
    match join_in(op) {
        Some((kind, set)) => Ok(Answer::Table(joined_rows(alloc, kind, set, left, right)?)),
        None => Ok(Answer::Nothing),
    }
}

fn join_foreign(alloc: Global, op: &Op, left: &Rows, right: &Rows) -> Result<Answer, AllocError>
    ensures { IfOk result (λ x. x ≡ answered (option_map
        (λ j. TableFound (foreign_join j.0 j.1.0 j.1.1 left.now right.now))
        (has_foreign (op_view op.now)))) }
{
    match foreign_in(op) {
        Some((fk, (kind, set))) => Ok(Answer::Table(foreign_rows(
            alloc, fk, kind, set, left, right,
        )?)),
        None => Ok(Answer::Nothing),
    }
}

// Of a stream node: what it passes on of the items that come to it.
fn stream_answer(
    alloc: Global,
    node: &Node,
    records: &[JobRecord],
    found: &[Answer],
) -> Result<Answer, AllocError>
    ensures { IfOk result (λ x. x ≡ stream_found records.now (answers_of found.now)
        (op_view node.now.op) node.now.wiring) }
{
    let op = &node.op;
    match node.wiring {
        Wiring::StreamSource { topic } => {
            let items = source_items(alloc, topic, records)?;
            Ok(Answer::Items(Seq::of(items)))
        }
        Wiring::StreamFilter { from } => filter_stream(alloc, op, items_at(found, from)),
        Wiring::StreamMap { from } => map_stream(alloc, op, items_at(found, from)),
        Wiring::KeySelected { from } => rekey_stream(alloc, op, items_at(found, from)),
        Wiring::StreamAggregate { from, .. } => aggregate_stream(alloc, op, items_at(found, from)),
        Wiring::Windowed { from, .. } => count_stream(alloc, op, items_at(found, from)),
        _ => table_answer(alloc, node, records, found),
    }
}

// Of a node over tables.
fn table_answer(
    alloc: Global,
    node: &Node,
    records: &[JobRecord],
    found: &[Answer],
) -> Result<Answer, AllocError>
    ensures { IfOk result (λ x. x ≡ table_found records.now (answers_of found.now)
        (op_view node.now.op) node.now.wiring) }
{
    let op = &node.op;
    let empty = Rows::new(alloc);
    match node.wiring {
        Wiring::TableSource { topic } => Ok(Answer::Table(latest_rows(alloc, topic, records)?)),
        Wiring::TableFilter { from } => {
            filter_table(alloc, op, rows_at(found, from as usize, &empty))
        }
        Wiring::TableMap { from } => map_table(alloc, op, rows_at(found, from as usize, &empty)),
        Wiring::TableAggregate { from } => {
            aggregate_table(alloc, op, rows_at(found, from as usize, &empty))
        }
        Wiring::KeyJoin { left, right } => {
            let left = rows_at(found, left as usize, &empty);
            join_tables(alloc, op, left, rows_at(found, right as usize, &empty))
        }
        Wiring::ForeignKeyJoin { left, right } => {
            let left = rows_at(found, left as usize, &empty);
            join_foreign(alloc, op, left, rows_at(found, right as usize, &empty))
        }
        _ => Ok(Answer::Nothing),
    }
}

// The answer of one more node.
#[tactic(auto, using(crate::proofs::Founds::longer))]
fn find_next(
    alloc: Global,
    node: &Node,
    records: &[JobRecord],
    found: &mut Vec<Answer>,
) -> Result<(), AllocError>
    ensures next { OnOk result (answers_of found.new.items
        ≡ answer_maybe records.now (answers_of found.old.items) (length found.old.items)
        (node_kind node.now)) }
    ensures longer { OnOk result (length found.new.items ≡ suc (length found.old.items)) }
{
    let answer = stream_answer(alloc, node, records, found)?;
    found.push(answer)?;
    Ok(())
}

/// The answers of the nodes, one after another, each from those before it.
#[tactic(auto, using(crate::proofs::Founds::rest_is))]
pub fn find_answers(
    alloc: Global,
    nodes: &[Node],
    records: &[JobRecord],
) -> Result<Vec<Answer>, AllocError>
    ensures { IfOk result (λ v. answers_of v.items
        ≡ answer_all records.now no_answers 0 (map node_kind nodes.now)) }
{
    let mut found = Vec::new(alloc);
    let mut rest = nodes;
    while let [node, more @ ..] = rest {
        find_next(alloc, node, records, &mut found)?;
        rest = more;
    }
    Ok(found)
}
