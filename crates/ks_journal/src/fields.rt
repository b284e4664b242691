//! The arguments in a line, each with the comma after it.
ghost use Rattle.std.specs.Prelude.{◌≡◌, ◌++◌, OnOk};
ghost use Rattle.serde_json.specs.Data.{boolean};
ghost use Rattle.ks_journal.specs.Lines.{field_text, part_text, task_work_text, assignment_text, offsets_text, whole, rec_data, task_data, recs_data, pairs_data, places_data};

use crate::values::{
    push_byte, push_number, push_pairs, push_places, push_positions, push_rec, push_recs,
    push_task, push_truth,
};
use ks_record::{Assignment, PartId, Rec, SharedRecords, TaskId};
use std::alloc::AllocError;

pub(crate) fn number_field(out: &mut Vec<u8>, number: u64) -> Result<(), AllocError>
    ensures { OnOk result (out.new.items ≡ out.old.items ++ field_text (whole number)) }
{
    push_number(out, number)?;
    push_byte(out, b',')
}

pub(crate) fn truth_field(out: &mut Vec<u8>, truth: bool) -> Result<(), AllocError>
    ensures { OnOk result (out.new.items ≡ out.old.items ++ field_text (boolean truth)) }
{
    push_truth(out, truth)?;
    push_byte(out, b',')
}

pub(crate) fn task_field(out: &mut Vec<u8>, task: TaskId) -> Result<(), AllocError>
    ensures { OnOk result (out.new.items ≡ out.old.items ++ field_text (task_data task)) }
{
    push_task(out, task)?;
    push_byte(out, b',')
}

pub(crate) fn rec_field(out: &mut Vec<u8>, rec: &Rec) -> Result<(), AllocError>
    ensures { OnOk result (out.new.items ≡ out.old.items ++ field_text (rec_data rec.now)) }
{
    push_rec(out, rec.as_ref())?;
    push_byte(out, b',')
}

pub(crate) fn recs_field(out: &mut Vec<u8>, recs: &SharedRecords) -> Result<(), AllocError>
    ensures { OnOk result (out.new.items ≡ out.old.items ++ field_text (recs_data recs.now)) }
{
    push_recs(out, recs)?;
    push_byte(out, b',')
}

fn pairs_field(out: &mut Vec<u8>, pairs: &[(u16, u64)]) -> Result<(), AllocError>
    ensures { OnOk result (out.new.items ≡ out.old.items ++ field_text (pairs_data pairs.now)) }
{
    push_pairs(out, pairs)?;
    push_byte(out, b',')
}

pub(crate) fn positions_field(
    out: &mut Vec<u8>,
    positions: &[(TaskId, u64)],
) -> Result<(), AllocError>
    ensures { OnOk result (out.new.items ≡ out.old.items
        ++ field_text (places_data positions.now)) }
{
    push_positions(out, positions)?;
    push_byte(out, b',')
}

fn places_field(out: &mut Vec<u8>, places: &[(TaskId, u8)]) -> Result<(), AllocError>
    ensures { OnOk result (out.new.items ≡ out.old.items ++ field_text (places_data places.now)) }
{
    push_places(out, places)?;
    push_byte(out, b',')
}

// The topic and the number of a partition.
pub(crate) fn part_fields(out: &mut Vec<u8>, part: PartId) -> Result<(), AllocError>
    ensures { OnOk result (out.new.items ≡ out.old.items ++ part_text part) }
{
    number_field(out, part.topic as u64)?;
    number_field(out, part.part as u64)
}

// A worker, its epoch, a number and a task.
pub(crate) fn task_work_fields(
    out: &mut Vec<u8>,
    w: u8,
    epoch: u64,
    number: u64,
    task: TaskId,
) -> Result<(), AllocError>
    ensures { OnOk result (out.new.items ≡ out.old.items ++ task_work_text w epoch number task) }
{
    number_field(out, w as u64)?;
    number_field(out, epoch)?;
    number_field(out, number)?;
    task_field(out, task)
}

// The offsets of a task, the order in which it took its records, and how many pairs were late.
pub(crate) fn offsets_fields(
    out: &mut Vec<u8>,
    offsets: &[(u16, u64)],
    order: &[(u16, u64)],
    late: u64,
) -> Result<(), AllocError>
    ensures { OnOk result (out.new.items ≡ out.old.items
        ++ offsets_text offsets.now order.now late) }
{
    pairs_field(out, offsets)?;
    pairs_field(out, order)?;
    number_field(out, late)
}

// The three lists of an assignment.
pub(crate) fn assignment_fields(out: &mut Vec<u8>, a: &Assignment) -> Result<(), AllocError>
    ensures { OnOk result (out.new.items ≡ out.old.items ++ assignment_text a.now) }
{
    places_field(out, a.active.as_slice())?;
    places_field(out, a.standby.as_slice())?;
    places_field(out, a.warmup.as_slice())
}
