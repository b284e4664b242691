//! Where the row of each task stands, in a table by the tasks' numbers.
ghost use Rattle.std.specs.Prelude.{◌≡◌, ◌<◌, ◌^◌, ℕ, if◌then◌else◌, length, get_or, IfOk, OnOk};
ghost use Rattle.ks_record.specs.declared.record.TaskId.{TaskId as Task};
ghost use Rattle.ks_record.specs.Parts.{same_task};
ghost use Rattle.ks_group.specs.Places.{task_number, ArePlaces};

use crate::committed::TaskOffsets;
use ks_record::TaskId;
use std::alloc::{AllocError, Global};

/// The number of a task among all that there may be.
pub fn task_number(task: TaskId) -> usize
    ensures { result ≡ task_number task }
{
    task.sub as usize * 256 + task.part as usize
}

/// Makes a table long enough for a number; what is new in it is `none`.
fn widen(places: &mut Vec<usize>, number: usize, none: usize) -> Result<(), AllocError>
    requires { number < 2 ^ 16 }
    ensures long { OnOk result (number < length places.new.items) }
    ensures same { OnOk result ((i : ℕ) → get_or places.new.items i none
        ≡ get_or places.old.items i none) }
{
    if number >= places.len() {
        places.resize(number + 1, none)?;
    }
    Ok(())
}

/// A task stands at this place, whatever the table said of it before.
fn put(places: &mut Vec<usize>, task: TaskId, at: usize, none: usize) -> Result<(), AllocError>
    ensures { OnOk result ((t : Task) → t.part < 256 → get_or places.new.items (task_number t) none
        ≡ (if same_task t task then at else get_or places.old.items (task_number t) none)) }
{
    let number = task_number(task);
    widen(places, number, none)?;
    places[number] = at;
    Ok(())
}

/// Where the first row of each task stands, by the task's number.
pub fn places_of(alloc: Global, rows: &[TaskOffsets]) -> Result<Vec<usize>, AllocError>
    ensures { IfOk result (λ places. ArePlaces places.items rows.now) }
{
    let mut places = Vec::new(alloc);
    let mut i = rows.len();
    while i > 0 {
        i -= 1;
        put(&mut places, rows[i].task(), i, rows.len())?;
    }
    Ok(places)
}
