//! The hashes of the rows that nodes show, by their bytes where they stand encoded.
ghost use Rattle.std.specs.Prelude.{◌≡◌, IfOk, option_map};
ghost use Rattle.ks_row.specs.Reading.{row_from};
ghost use Rattle.ks_def_tasks.specs.Messages.{shown};
ghost use Rattle.ks_def_tasks.specs.Foreign.{hash_of};
ghost use Rattle.ks_def_tasks.specs.Step.{row_in};
ghost use Rattle.ks_fk_left.specs.Asked.{row_hash};
ghost use Rattle.ks_task_nodes.specs.Stored.{value_view};
ghost use Rattle.ks_task_values.specs.Values.{news_in};

use crate::step::{NodeValues, live_value, new_row};
use ks_fk_left::{hash_of_row, hash_row};
use ks_hash::Hash128;
use ks_task_nodes::{EncodedRow, NewValue, StoredValue, row_after};
use std::alloc::{AllocError, Global};

// Of stored bytes; none where they spell no row.
fn hash_stored<H: Hash128>(bytes: &[u8]) -> Option<u128>
    ensures { result ≡ hash_of (row_hash H.hash_of) (row_from bytes.now) }
{
    match EncodedRow::of(bytes) {
        Some(row) => Some(H::hash(row.bytes())),
        None => None,
    }
}

fn hash_after<H: Hash128>(alloc: Global, new: &NewValue<'_>) -> Result<Option<u128>, AllocError>
    ensures { IfOk result (λ h. h ≡ hash_of (row_hash H.hash_of)
        (option_map shown (value_view new.now))) }
{
    match new {
        NewValue::Encoded(row) => Ok(Some(H::hash(row.bytes()))),
        NewValue::Row(row) => Ok(Some(hash_row::<H>(row))),
        NewValue::Unchanged(Some(StoredValue::Row(bytes))) => Ok(hash_stored::<H>(bytes)),
        _ => {
            let row = row_after(alloc, new)?;
            let hash = hash_of_row::<H>(row.as_ref());
            drop(row);
            Ok(hash)
        }
    }
}

/// The hash of the row that a node shows after the step, where it shows one. Want of memory is the one error.
pub fn new_hash<H: Hash128>(
    alloc: Global,
    values: &NodeValues<'_, '_>,
    number: u8,
) -> Result<Option<u128>, AllocError>
    ensures { IfOk result (λ h. h ≡ hash_of (row_hash H.hash_of)
        (row_in (news_in values.now) number)) }
{
    match live_value(values.live, number) {
        Some(live) => hash_after::<H>(alloc, &live.new),
        None => {
            let row = new_row(alloc, values, number)?;
            let hash = hash_of_row::<H>(row.as_ref());
            drop(row);
            Ok(hash)
        }
    }
}
