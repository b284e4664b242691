//! The parked pairs of an instance and a task.
ghost use Rattle.std.specs.Prelude.{◌≡◌, IfOk};
ghost use Rattle.ks_cluster.specs.ParkedPairs.{is_parked_in, unparked_in};

use ks_record::TaskId;
use std::alloc::{AllocError, Global};

/// Whether a task is parked at an instance: whether the two stand together among parked pairs.
pub fn is_parked(parked: &[(u8, TaskId)], instance: u8, task: TaskId) -> bool
    ensures { result ≡ is_parked_in instance task parked.now }
{
    for pair in parked {
        if instance == pair.0 && task.is(pair.1) {
            return true;
        }
    }
    false
}

/// Parked pairs without one, wherever and however often it stands; the others stay in their order. Want of memory for the
/// list is the one error.
pub fn without_parked(
    alloc: Global,
    parked: &[(u8, TaskId)],
    instance: u8,
    task: TaskId,
) -> Result<Vec<(u8, TaskId)>, AllocError>
    ensures { IfOk result (λ made. made.items ≡ unparked_in instance task parked.now) }
{
    let mut made = Vec::new(alloc);
    for pair in parked {
        if !(instance == pair.0 && task.is(pair.1)) {
            made.push(*pair)?;
        }
    }
    Ok(made)
}
