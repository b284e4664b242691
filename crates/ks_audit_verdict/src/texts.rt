//! The lines that an audit writes.
ghost use Rattle.std.specs.Prelude.{◌≡◌, ◌++◌, ◌∷◌, [], IfOk, codes, decimal};
ghost use Rattle.ks_journal.specs.Lines.{task_text};
ghost use Rattle.ks_job_record.specs.Texts.{name_text as text_of_name};
ghost use Rattle.ks_audit_verdict.specs.Texts.{fault_text, no_text, yes_text};

use crate::fault::OutputFault;
use ks_job_record::name_text;
use ks_record::TaskId;
use std::alloc::{AllocError, Global};

/// The line for an output that is that of a settled run. Want of memory is the one error.
#[tactic(auto, unfolding(crate::specs::Texts::yes_text))]
pub fn print_yes(alloc: Global) -> Result<Vec<u8>, AllocError>
    ensures { IfOk result (λ v. v.items ≡ yes_text) }
{
    Vec::from_slice(alloc, b"yes\n")
}

fn print_task(alloc: Global, task: TaskId) -> Result<Vec<u8>, AllocError>
    ensures { IfOk result (λ v. v.items ≡ codes "42 NotFaithful " ++ 34
        ∷ (task_text task ++ 34 ∷ [])) }
{
    let mut text = Vec::from_slice(alloc, b"42 NotFaithful \"")?;
    text.extend_from_slice(task.sub.to_string(alloc)?.as_bytes())?;
    text.extend_from_slice(b"_")?;
    text.extend_from_slice(task.part.to_string(alloc)?.as_bytes())?;
    text.extend_from_slice(b"\"")?;
    Ok(text)
}

fn print_unsettled(alloc: Global, lags: usize, pending: u32) -> Result<Vec<u8>, AllocError>
    ensures { IfOk result (λ v. v.items
        ≡ codes "43 NotSettled " ++ decimal lags ++ codes " " ++ decimal pending) }
{
    let mut text = Vec::from_slice(alloc, b"43 NotSettled ")?;
    text.extend_from_slice(lags.to_string(alloc)?.as_bytes())?;
    text.extend_from_slice(b" ")?;
    text.extend_from_slice(pending.to_string(alloc)?.as_bytes())?;
    Ok(text)
}

fn print_late(alloc: Global, late: u64) -> Result<Vec<u8>, AllocError>
    ensures { IfOk result (λ v. v.items ≡ codes "45 Late " ++ decimal late) }
{
    let mut text = Vec::from_slice(alloc, b"45 Late ")?;
    text.extend_from_slice(late.to_string(alloc)?.as_bytes())?;
    Ok(text)
}

fn print_wrong(alloc: Global, name: &[u8]) -> Result<Vec<u8>, AllocError>
    ensures { IfOk result (λ v. v.items ≡ codes "46 WrongTable " ++ text_of_name name.now) }
{
    let mut text = Vec::from_slice(alloc, b"46 WrongTable ")?;
    text.extend_from_slice(name_text(alloc, name)?.as_bytes())?;
    Ok(text)
}

fn print_fault(alloc: Global, fault: &OutputFault) -> Result<Vec<u8>, AllocError>
    ensures { IfOk result (λ v. v.items ≡ fault_text fault.now) }
{
    match fault {
        OutputFault::TooLong => Vec::from_slice(alloc, b"47 TooLong"),
        OutputFault::NotJournal => Vec::from_slice(alloc, b"40 NotJournal"),
        OutputFault::NotLegal => Vec::from_slice(alloc, b"41 NotLegal"),
        OutputFault::NotFaithful { task } => print_task(alloc, *task),
        OutputFault::NotSettled { lags, pending } => print_unsettled(alloc, *lags, *pending),
        OutputFault::Collision => Vec::from_slice(alloc, b"44 Collision"),
        OutputFault::Late { late } => print_late(alloc, *late),
        OutputFault::WrongTable { name } => print_wrong(alloc, name.as_slice()),
    }
}

/// The line for an output that isn't: the number of the line that shows it, and the fault. Want of memory is the one error.
#[tactic(auto, unfolding(crate::specs::Texts::no_text))]
pub fn print_no(alloc: Global, line: u64, fault: &OutputFault) -> Result<Vec<u8>, AllocError>
    ensures { IfOk result (λ v. v.items ≡ no_text line fault.now) }
{
    let mut text = Vec::from_slice(alloc, b"no ")?;
    text.extend_from_slice(line.to_string(alloc)?.as_bytes())?;
    text.extend_from_slice(b" ")?;
    text.extend_from_slice(&print_fault(alloc, fault)?)?;
    text.extend_from_slice(b"\n")?;
    Ok(text)
}
