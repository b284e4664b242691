//! What a join on a foreign key stores (KIP-213).
ghost use Rattle.std.specs.Prelude.{◌≡◌, IfOk, Some, None, is_none, option_copied};
ghost use Rattle.ks_expr.specs.Terms.{set_of};
ghost use Rattle.ks_plan.specs.declared.node.Topic.TheVariants.{Responses};
ghost use Rattle.ks_def_tasks.specs.Foreign.{is_direct as direct_is, direct_row, key_of_row};
ghost use Rattle.ks_def_tasks.specs.Step.{arrived, step_key, row_in, direct, responded};
ghost use Rattle.ks_def_tasks.specs.Rules.{rules_of};
ghost use Rattle.ks_task_nodes.specs.Records.{arrival_of, message_of};
ghost use Rattle.ks_task_nodes.specs.Stored.{stored_in, value_view};
ghost use Rattle.ks_task_values.specs.Values.{olds_in, news_in, foreign_value as foreign_stored, is_awaited as awaited, foreign_stays as foreign_kept};

use crate::step::{NodeValues, is_changed, new_row, old_row};
use crate::values::value_of_row;
use ks_fk_left::{foreign_key, hash_of_row, is_answer_to};
use ks_hash::Hash128;
use ks_plan::Topic;
use ks_record::Key;
use ks_row::Row;
use ks_table_ops::join_rows;
use ks_task_nodes::{
    ForeignKeyJoin, NewValue, Payload, StampedRecord, StoredValue, is_elsewhere, is_same_topic,
};
use ks_wire::Response;
use std::alloc::{AllocError, Global};

// Whether a left row of this key has no foreign key.
fn is_without_key(
    alloc: Global,
    join: &ForeignKeyJoin<'_>,
    key: &Key,
    row: Option<&Row>,
) -> Result<bool, AllocError>
    ensures { IfOk result (λ b. b ≡ is_none
        (key_of_row join.now.foreign_key.now key.now (option_copied row.entry))) }
{
    let foreign = foreign_key(alloc, join.foreign_key, key, row)?;
    let is_without = foreign.is_none();
    drop(foreign);
    Ok(is_without)
}

// Whether no answer will come to a changed left row, so that the result is set at once. The row before is read only where there is none
// after.
fn is_direct(
    alloc: Global,
    join: &ForeignKeyJoin<'_>,
    key: &Key,
    values: &NodeValues<'_, '_>,
    new: &Option<Row>,
) -> Result<bool, AllocError>
    ensures { IfOk result (λ b. b ≡ direct_is join.now.foreign_key.now key.now
        (row_in (olds_in values.now) join.now.left) new.now) }
{
    match new {
        Some(_) => is_without_key(alloc, join, key, new.as_ref()),
        None => {
            let old = old_row(alloc, values, join.left)?;
            let is_direct = is_without_key(alloc, join, key, old.as_ref());
            drop(old);
            is_direct
        }
    }
}

// The result of a left row without a right one.
fn left_alone(
    alloc: Global,
    join: &ForeignKeyJoin<'_>,
    row: &Option<Row>,
) -> Result<Option<Row>, AllocError>
    ensures { IfOk result (λ r. r ≡ direct_row join.now.kind (set_of join.now.set.now) row.now) }
{
    match row {
        Some(row) => join_rows(alloc, join.kind, join.set, Some(row), None),
        None => Ok(None),
    }
}

fn direct_value<'a>(
    alloc: Global,
    join: &ForeignKeyJoin<'_>,
    key: Option<&Key>,
    old: Option<StoredValue<'a>>,
    values: &NodeValues<'_, '_>,
) -> Result<NewValue<'a>, AllocError>
    ensures { IfOk result (λ v. value_view v ≡ direct join.now.foreign_key.now
        (option_copied key.entry) join.now.kind (set_of join.now.set.now)
        (row_in (olds_in values.now) join.now.left) (row_in (news_in values.now) join.now.left)
        (stored_in old.entry)) }
{
    let Some(key) = key else {
        return Ok(NewValue::Unchanged(old));
    };
    let now = new_row(alloc, values, join.left)?;
    let Ok(is_direct) = is_direct(alloc, join, key, values, &now) else {
        drop(now);
        return Err(AllocError);
    };
    if is_direct {
        let row = left_alone(alloc, join, &now);
        drop(now);
        Ok(value_of_row(row?))
    } else {
        drop(now);
        Ok(NewValue::Unchanged(old))
    }
}

fn responded_value<'a, H: Hash128>(
    alloc: Global,
    number: u8,
    join: &ForeignKeyJoin<'_>,
    old: Option<StoredValue<'a>>,
    values: &NodeValues<'_, '_>,
    stamped: &StampedRecord<'_>,
) -> Result<NewValue<'a>, AllocError>
    ensures { IfOk result (λ v. value_view v ≡ responded (rules_of H.hash_of) join.now.kind
        (set_of join.now.set.now) (row_in (news_in values.now) join.now.left)
        (arrived (arrival_of stamped.now) (Responses number)) (stored_in old.entry)) }
{
    if !is_same_topic(stamped.topic, Topic::Responses(number)) {
        return Ok(NewValue::Unchanged(old));
    }
    let Payload::Response { response, .. } = &stamped.payload else {
        return Ok(NewValue::Unchanged(old));
    };
    let left = new_row(alloc, values, join.left)?;
    if !is_answer_to(hash_of_row::<H>(left.as_ref()), response) {
        drop(left);
        return Ok(NewValue::Unchanged(old));
    }
    let right = response.right.as_ref();
    let row = join_rows(alloc, join.kind, join.set, left.as_ref(), right);
    drop(left);
    Ok(value_of_row(row?))
}

/// What a join on a foreign key stores after the step: by its left row where that changed, else by a response to it. Want of memory is
/// the one error.
pub fn foreign_value<'a, H: Hash128>(
    alloc: Global,
    number: u8,
    join: &ForeignKeyJoin<'_>,
    old: Option<StoredValue<'a>>,
    values: &NodeValues<'_, '_>,
    stamped: &StampedRecord<'_>,
) -> Result<NewValue<'a>, AllocError>
    ensures { IfOk result (λ v. value_view v ≡ foreign_stored (rules_of H.hash_of)
        join.now.foreign_key.now (step_key (message_of stamped.now.payload)) join.now.kind
        (set_of join.now.set.now) (olds_in values.now) (news_in values.now) join.now.left
        (arrived (arrival_of stamped.now) (Responses number)) (stored_in old.entry)) }
{
    if is_changed(values, join.left) {
        direct_value(alloc, join, stamped.key(), old, values)
    } else {
        responded_value::<H>(alloc, number, join, old, values, stamped)
    }
}

// Whether an answer will come to a changed left row, so that the result isn't set at once.
fn is_awaited(
    alloc: Global,
    join: &ForeignKeyJoin<'_>,
    key: Option<&Key>,
    values: &NodeValues<'_, '_>,
) -> Result<bool, AllocError>
    ensures { IfOk result (λ b. b ≡ awaited join.now.foreign_key.now (option_copied key.entry)
        (row_in (olds_in values.now) join.now.left) (row_in (news_in values.now) join.now.left)) }
{
    match key {
        Some(key) => {
            let now = new_row(alloc, values, join.left)?;
            let is_direct = is_direct(alloc, join, key, values, &now);
            drop(now);
            Ok(!is_direct?)
        }
        None => Ok(true),
    }
}

/// Whether a join on a foreign key stores what it did, whatever it was: an answer will come to its changed left row, or its left row
/// stays and the record is no response. Want of memory is the one error.
pub fn foreign_stays(
    alloc: Global,
    number: u8,
    join: &ForeignKeyJoin<'_>,
    values: &NodeValues<'_, '_>,
    stamped: &StampedRecord<'_>,
) -> Result<bool, AllocError>
    ensures { IfOk result (λ b. b ≡ foreign_kept (arrival_of stamped.now) (olds_in values.now)
        (news_in values.now) number join.now.left join.now.foreign_key.now) }
{
    if is_changed(values, join.left) {
        is_awaited(alloc, join, stamped.key(), values)
    } else {
        Ok(is_elsewhere(stamped, Topic::Responses(number)))
    }
}
