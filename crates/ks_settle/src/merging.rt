//! Two lists of rows in order of key bytes, put together.
ghost use Rattle.std.specs.Prelude.{◌≡◌, ◌+◌, ◌<◌, ◌∷◌, [], IfOk, IfSome, MatchOption};
ghost use Rattle.std.specs.VecDeque.{deque_len};
ghost use Rattle.ks_settle.specs.Rows.{first_of, merged_rows};

use ks_query::TableRow;
use std::alloc::{AllocError, Global};
use std::cmp::Ordering;
use std::collections::VecDeque;

// From which list the next row is taken: the one with the lesser key, both where their keys are equal.
fn first_of(later: &VecDeque<TableRow>, earlier: &VecDeque<TableRow>) -> Ordering
    ensures { result ≡ first_of later.now.items earlier.now.items }
{
    match (later.front(), earlier.front()) {
        (Some(one), Some(other)) => one.key.cmp(&other.key),
        (None, Some(_)) => Ordering::Greater,
        _ => Ordering::Less,
    }
}

// The next row; of two at one key the later, and the earlier goes.
fn take_first(later: &mut VecDeque<TableRow>, earlier: &mut VecDeque<TableRow>) -> Option<TableRow>
    ensures rows { MatchOption result (merged_rows later.old.items earlier.old.items ≡ [])
        (λ row. merged_rows later.old.items earlier.old.items ≡ row
        ∷ merged_rows later.new.items earlier.new.items) }
    ensures fewer { IfSome result (λ row. deque_len later.new + deque_len earlier.new
        < deque_len later.old + deque_len earlier.old) }
{
    match first_of(later, earlier) {
        Ordering::Less => later.pop_front(),
        Ordering::Greater => earlier.pop_front(),
        Ordering::Equal => {
            earlier.pop_front();
            later.pop_front()
        }
    }
}

/// Two lists of rows, each in order of key bytes, as one; where both have a key, the row of the later. `Err` only where memory ran out.
pub fn merge_rows(
    alloc: Global,
    earlier: Vec<TableRow>,
    later: Vec<TableRow>,
) -> Result<Vec<TableRow>, AllocError>
    ensures { IfOk result (λ v. v.items ≡ merged_rows later.items earlier.items) }
{
    let mut rows = Vec::with_capacity(alloc, earlier.len().saturating_add(later.len()))?;
    let mut earlier = VecDeque::from_vec(earlier);
    let mut later = VecDeque::from_vec(later);
    while let Some(row) = take_first(&mut later, &mut earlier) {
        rows.push(row)?;
    }
    Ok(rows)
}
