//! The stored values of tables.
ghost use Rattle.std.specs.Prelude.{◌≡◌, Some, None, IfOk, option_map};
ghost use Rattle.std.specs.Ordering.{eq_by_cmp, int_cmp};
ghost use Rattle.ks_wire.specs.Reading.{agg_from};
ghost use Rattle.ks_def_tasks.specs.Messages.Stored.{OfAgg};
ghost use Rattle.ks_def_tasks.specs.Messages.{shown, agg_of, same_agg, same_bool, same_stored, same_option};
ghost use Rattle.ks_def_tasks.specs.Bytes.{stored_from};
ghost use Rattle.ks_task_nodes.specs.Nodes.{kind_of};
ghost use Rattle.ks_task_nodes.specs.Stored.{stored_in, value_view};

use crate::encoded::EncodedRow;
use crate::processor::Processor;
use ks_agg::agg_row;
use ks_row::{Row, decode, spells_row};
use ks_wire::{Agg, read_agg};
use std::alloc::{AllocError, Global};

/// What a table stores at a key, as it is found.
#[derive(Clone, Copy)]
pub enum StoredValue<'a> {
    /// Of a node that stores rows, the bytes in its store: those that spell no row are no value.
    Row(&'a [u8]),
    /// An aggregate, and whether it is a count.
    Aggregate { is_count: bool, agg: Agg },
}

/// What a table stores at a key after a step.
#[derive(Drop)]
pub enum NewValue<'a> {
    /// What it was.
    Unchanged(Option<StoredValue<'a>>),
    /// No value.
    Absent,
    /// The row of a record.
    Encoded(&'a EncodedRow<'a>),
    /// A row that was made.
    Row(Row),
    /// An aggregate, and whether it is a count.
    Aggregate { is_count: bool, agg: Agg },
}

fn aggregate_from<'a>(is_count: bool, bytes: &'a [u8]) -> Option<StoredValue<'a>>
    ensures { stored_in result ≡ option_map (OfAgg is_count) (agg_from bytes.now) }
{
    Some(StoredValue::Aggregate {
        is_count,
        agg: read_agg(bytes)?,
    })
}

/// The value that a node's bytes spell; none where an aggregate's spell nothing. Takes no memory.
pub fn read_value<'a>(processor: &Processor<'_>, bytes: &'a [u8]) -> Option<StoredValue<'a>>
    ensures { stored_in result ≡ stored_from (kind_of processor.now) bytes.now }
{
    match processor {
        Processor::TableAggregate { field, .. } => aggregate_from(field.is_none(), bytes),
        Processor::StreamAggregate { field, .. } => aggregate_from(field.is_none(), bytes),
        _ => Some(StoredValue::Row(bytes)),
    }
}

/// The row that the nodes below see of a stored value. Want of memory is the one error.
pub fn stored_row(alloc: Global, value: Option<StoredValue<'_>>) -> Result<Option<Row>, AllocError>
    ensures { IfOk result (λ r. r ≡ option_map shown (stored_in value.entry)) }
{
    match value {
        Some(StoredValue::Row(bytes)) => decode(alloc, bytes),
        Some(StoredValue::Aggregate { is_count, agg }) => Ok(Some(agg_row(alloc, is_count, agg)?)),
        None => Ok(None),
    }
}

/// The row that the nodes below see after a step. Want of memory is the one error.
pub fn row_after(alloc: Global, value: &NewValue<'_>) -> Result<Option<Row>, AllocError>
    ensures { IfOk result (λ r. r ≡ option_map shown (value_view value.now)) }
{
    match value {
        NewValue::Unchanged(old) => stored_row(alloc, *old),
        NewValue::Absent => Ok(None),
        NewValue::Encoded(row) => row.row(alloc),
        NewValue::Row(row) => Ok(Some(row.clone()?)),
        NewValue::Aggregate { is_count, agg } => Ok(Some(agg_row(alloc, *is_count, *agg)?)),
    }
}

/// The aggregate, where one is stored. Takes no memory.
pub fn aggregate_in(value: Option<StoredValue<'_>>) -> Option<Agg>
    ensures { result ≡ agg_of (stored_in value.entry) }
{
    match value {
        Some(StoredValue::Aggregate { agg, .. }) => Some(agg),
        _ => None,
    }
}

/// Whether two numbers are the same.
pub fn is_same_number(a: i64, b: i64) -> bool
    ensures { result ≡ eq_by_cmp int_cmp a b }
{
    a == b
}

/// Whether two aggregates are the same.
pub fn is_same_agg(a: &Agg, b: &Agg) -> bool
    ensures { result ≡ same_agg a.now b.now }
{
    is_same_number(a.members, b.members) && is_same_number(a.total, b.total)
}

/// Whether both are true or none is.
pub fn is_same_bool(a: bool, b: bool) -> bool
    ensures { result ≡ same_bool a b }
{
    a == b
}

/// Whether there is no value. Takes no memory.
pub fn is_absent(old: Option<StoredValue<'_>>) -> bool
    ensures { result ≡ same_option same_stored (stored_in old.entry) None }
{
    match old {
        Some(StoredValue::Row(bytes)) => !spells_row(bytes),
        Some(StoredValue::Aggregate { .. }) => false,
        None => true,
    }
}
