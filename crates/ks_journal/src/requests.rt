//! The front of a line: the request's name and its arguments.
ghost use Rattle.std.specs.Prelude.{◌≡◌, ◌++◌, OnOk};
ghost use Rattle.ks_history.specs.declared.journal.Request.TheVariants.{Produce, Add, Decide, Hold, Probe, Assign, Park};
ghost use Rattle.ks_journal.specs.Lines.{call_of, name_text, arguments_text};

use crate::fields::{
    assignment_fields, number_field, offsets_fields, part_fields, positions_field, rec_field,
    recs_field, task_field, task_work_fields, truth_field,
};
use crate::values::push_plain;
use ks_history::Request;
use ks_record::{Assignment, PartId, Rec, TaskId};
use std::alloc::AllocError;

fn name_of(request: &Request) -> &'static str
    ensures { result.now ≡ (call_of request.now).0 }
{
    match request {
        Request::Produce { .. } => "produce",
        Request::Init { .. } => "init",
        Request::Add { .. } => "add",
        Request::Append { .. } => "append",
        Request::SendOffsets { .. } => "offsets",
        Request::Decide { .. } => "decide",
        Request::MarkNext { .. } => "mark",
        Request::Join { .. } => "join",
        Request::Expire { .. } => "expire",
        Request::Hold { .. } => "hold",
        Request::Probe { .. } => "probe",
        Request::Assign { .. } => "assign",
        Request::Park { .. } => "park",
        Request::Unpark { .. } => "unpark",
    }
}

// The name, in quotes.
pub(crate) fn push_name(out: &mut Vec<u8>, request: &Request) -> Result<(), AllocError>
    ensures { OnOk result (out.new.items ≡ out.old.items ++ name_text request.now) }
{
    push_plain(out, name_of(request))
}

fn produce_fields(out: &mut Vec<u8>, part: PartId, rec: &Rec) -> Result<(), AllocError>
    ensures { OnOk result (out.new.items ≡ out.old.items ++ arguments_text (Produce part rec.now)) }
{
    part_fields(out, part)?;
    rec_field(out, rec)
}

fn add_fields(out: &mut Vec<u8>, w: u8, epoch: u64, part: PartId) -> Result<(), AllocError>
    ensures { OnOk result (out.new.items ≡ out.old.items ++ arguments_text (Add w epoch part)) }
{
    number_field(out, w as u64)?;
    number_field(out, epoch)?;
    part_fields(out, part)
}

fn decide_fields(out: &mut Vec<u8>, w: u8, epoch: u64, commit: bool) -> Result<(), AllocError>
    ensures { OnOk result (out.new.items ≡ out.old.items
        ++ arguments_text (Decide w epoch commit)) }
{
    number_field(out, w as u64)?;
    number_field(out, epoch)?;
    truth_field(out, commit)
}

fn hold_fields(out: &mut Vec<u8>, w: u8, held: &[(TaskId, u64)]) -> Result<(), AllocError>
    ensures { OnOk result (out.new.items ≡ out.old.items ++ arguments_text (Hold w held.now)) }
{
    number_field(out, w as u64)?;
    positions_field(out, held)
}

fn probe_fields(out: &mut Vec<u8>, w: u8, generation: u64) -> Result<(), AllocError>
    ensures { OnOk result (out.new.items ≡ out.old.items ++ arguments_text (Probe w generation)) }
{
    number_field(out, w as u64)?;
    number_field(out, generation)
}

fn assign_fields(
    out: &mut Vec<u8>,
    w: u8,
    generation: u64,
    a: &Assignment,
) -> Result<(), AllocError>
    ensures { OnOk result (out.new.items ≡ out.old.items
        ++ arguments_text (Assign w generation a.now)) }
{
    number_field(out, w as u64)?;
    number_field(out, generation)?;
    assignment_fields(out, a)
}

// Of `park`, and of `unpark`.
fn shelf_fields(out: &mut Vec<u8>, instance: u8, task: TaskId) -> Result<(), AllocError>
    ensures { OnOk result (out.new.items ≡ out.old.items ++ arguments_text (Park instance task)) }
{
    number_field(out, instance as u64)?;
    task_field(out, task)
}

// What follows the name, each with the comma after it.
pub(crate) fn push_arguments(out: &mut Vec<u8>, request: &Request) -> Result<(), AllocError>
    ensures { OnOk result (out.new.items ≡ out.old.items ++ arguments_text request.now) }
{
    match request {
        Request::Produce { part, rec } => produce_fields(out, *part, rec),
        Request::Init { w } => number_field(out, *w as u64),
        Request::Add { w, epoch, part } => add_fields(out, *w, *epoch, *part),
        Request::Append {
            w,
            epoch,
            number,
            task,
            part,
            recs,
        } => {
            task_work_fields(out, *w, *epoch, *number, *task)?;
            part_fields(out, *part)?;
            recs_field(out, recs)
        }
        Request::SendOffsets {
            w,
            epoch,
            generation,
            task,
            offsets,
            order,
            late,
        } => {
            task_work_fields(out, *w, *epoch, *generation, *task)?;
            offsets_fields(out, offsets.as_slice(), order.as_slice(), *late)
        }
        Request::Decide { w, epoch, commit } => decide_fields(out, *w, *epoch, *commit),
        Request::MarkNext { w } => number_field(out, *w as u64),
        Request::Join { w } => number_field(out, *w as u64),
        Request::Expire { w } => number_field(out, *w as u64),
        Request::Hold { w, held } => hold_fields(out, *w, held.as_slice()),
        Request::Probe { w, generation } => probe_fields(out, *w, *generation),
        Request::Assign { w, generation, a } => assign_fields(out, *w, *generation, a),
        Request::Park { instance, task } => shelf_fields(out, *instance, *task),
        Request::Unpark { instance, task } => shelf_fields(out, *instance, *task),
    }
}
