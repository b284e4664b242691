//! The end of a line: the reply.
ghost use Rattle.std.specs.Prelude.{◌≡◌, ◌++◌, Some, OnOk};
ghost use Rattle.serde_json.specs.Written.{compact_text};
ghost use Rattle.ks_record.specs.declared.assignment.Refused.TheVariants.{AlreadyDecided, NoTransaction, NotAssigned, BadAssignment};
ghost use Rattle.ks_journal.specs.Lines.{owner_data, refusal_text, mark_data, reply_data};

use crate::fields::{number_field, part_fields};
use crate::values::{push_byte, push_null, push_number, push_pair, push_task, push_truth};
use ks_history::Reply;
use ks_record::{PartId, Refused, TaskId};
use std::alloc::AllocError;

fn push_owner(out: &mut Vec<u8>, owner: Option<u8>) -> Result<(), AllocError>
    ensures { OnOk result (out.new.items ≡ out.old.items ++ compact_text (owner_data owner)) }
{
    match owner {
        Some(worker) => push_number(out, worker as u64),
        None => push_null(out),
    }
}

fn push_not_assigned(out: &mut Vec<u8>, owner: Option<u8>) -> Result<(), AllocError>
    ensures { OnOk result (out.new.items ≡ out.old.items ++ refusal_text (NotAssigned owner)) }
{
    push_byte(out, b'[')?;
    number_field(out, 6)?;
    push_owner(out, owner)?;
    push_byte(out, b']')
}

fn push_already_decided(out: &mut Vec<u8>, commit: bool) -> Result<(), AllocError>
    ensures { OnOk result (out.new.items ≡ out.old.items ++ refusal_text (AlreadyDecided commit)) }
{
    push_byte(out, b'[')?;
    number_field(out, 3)?;
    push_truth(out, commit)?;
    push_byte(out, b']')
}

fn push_bad_assignment(out: &mut Vec<u8>, task: TaskId) -> Result<(), AllocError>
    ensures { OnOk result (out.new.items ≡ out.old.items ++ refusal_text (BadAssignment task)) }
{
    push_byte(out, b'[')?;
    number_field(out, 9)?;
    push_task(out, task)?;
    push_byte(out, b']')
}

fn push_no_transaction(out: &mut Vec<u8>) -> Result<(), AllocError>
    ensures { OnOk result (out.new.items ≡ out.old.items ++ refusal_text NoTransaction) }
{
    push_byte(out, b'[')?;
    push_number(out, 4)?;
    push_byte(out, b']')
}

// A refusal: its number and what it tells.
fn push_refusal(out: &mut Vec<u8>, refused: Refused) -> Result<(), AllocError>
    ensures { OnOk result (out.new.items ≡ out.old.items ++ refusal_text refused) }
{
    match refused {
        Refused::OutOfSequence { expected } => push_pair(out, (1, expected)),
        Refused::Fenced { held } => push_pair(out, (2, held)),
        Refused::AlreadyDecided { commit } => push_already_decided(out, commit),
        Refused::NoTransaction => push_no_transaction(out),
        Refused::OldGeneration { now } => push_pair(out, (5, now)),
        Refused::NotAssigned { owner } => push_not_assigned(out, owner),
        Refused::Unstable { producer } => push_pair(out, (7, producer as u64)),
        Refused::MarkersWaiting { left } => push_pair(out, (8, left as u64)),
        Refused::BadAssignment { task } => push_bad_assignment(out, task),
    }
}

// A marker that was written: `[T,P,COMMIT]`.
fn push_mark(out: &mut Vec<u8>, part: PartId, commit: bool) -> Result<(), AllocError>
    ensures { OnOk result (out.new.items ≡ out.old.items
        ++ compact_text (mark_data (Some (part, commit)))) }
{
    push_byte(out, b'[')?;
    part_fields(out, part)?;
    push_truth(out, commit)?;
    push_byte(out, b']')
}

pub(crate) fn push_reply(out: &mut Vec<u8>, reply: &Reply) -> Result<(), AllocError>
    ensures { OnOk result (out.new.items ≡ out.old.items ++ compact_text (reply_data reply.now)) }
{
    match reply {
        Reply::Done => push_truth(out, true),
        Reply::Number(number) => push_number(out, *number),
        Reply::Truth(truth) => push_truth(out, *truth),
        Reply::Mark(None) => push_null(out),
        Reply::Mark(Some((part, commit))) => push_mark(out, *part, *commit),
        Reply::Refused(refused) => push_refusal(out, *refused),
    }
}
