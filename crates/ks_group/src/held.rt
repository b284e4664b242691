//! The positions that workers hold, each beside its worker.
ghost use Rattle.std.specs.Prelude.{◌≡◌, ◌++◌, ◌≤◌, IfOk, OnOk};
ghost use Rattle.ks_group.specs.Held.{held_by, held_between, held_without, held_with};

use ks_record::TaskId;
use std::alloc::{AllocError, Global};

/// Puts the positions of one worker behind those that are there.
fn push_by(
    made: &mut Vec<(u8, TaskId, u64)>,
    w: u8,
    held: &[(TaskId, u64)],
) -> Result<(), AllocError>
    ensures { OnOk result (made.new.items ≡ made.old.items ++ held_by w held.now) }
{
    for pair in held {
        made.push((w, pair.0, pair.1))?;
    }
    Ok(())
}

/// Puts those of the workers from one on and below another behind those that are there.
fn push_between(
    made: &mut Vec<(u8, TaskId, u64)>,
    from: u8,
    to: u8,
    held: &[(u8, TaskId, u64)],
) -> Result<(), AllocError>
    ensures { OnOk result (made.new.items ≡ made.old.items ++ held_between from to held.now) }
{
    for row in held {
        if from <= row.0 && row.0 < to {
            made.push(*row)?;
        }
    }
    Ok(())
}

/// The positions with other ones of a worker, which stand between those of the workers before it and after it.
pub fn with_held(
    alloc: Global,
    held: &[(u8, TaskId, u64)],
    w: u8,
    new: &[(TaskId, u64)],
) -> Result<Vec<(u8, TaskId, u64)>, AllocError>
    requires { w ≤ 16 }
    ensures { IfOk result (λ made. made.items ≡ held_with w new.now held.now) }
{
    let mut made = Vec::new(alloc);
    push_between(&mut made, 0, w, held)?;
    push_by(&mut made, w, new)?;
    push_between(&mut made, w + 1, 17, held)?;
    Ok(made)
}

/// Takes the positions of a worker out of all, which stay in their order. Takes no memory.
pub fn remove_held(held: &mut Vec<(u8, TaskId, u64)>, w: u8)
    ensures { held.new.items ≡ held_without w held.old.items }
{
    held.retain(|row| row.0 != w);
}
