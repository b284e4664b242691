//! The text of a journal.
ghost use Rattle.std.specs.Prelude.{◌≡◌, ◌++◌, IfOk, OnOk};
ghost use Rattle.ks_journal.specs.Lines.{entry_text, line_text, journal_text};

use crate::replies::push_reply;
use crate::requests::{push_arguments, push_name};
use crate::values::push_byte;
use ks_history::{Entry, Journal};
use ks_record::Blob;
use std::alloc::{AllocError, Global};

fn push_entry(out: &mut Vec<u8>, entry: &Entry) -> Result<(), AllocError>
    ensures { OnOk result (out.new.items ≡ out.old.items ++ entry_text entry.now) }
{
    push_byte(out, b'[')?;
    push_name(out, &entry.request)?;
    push_byte(out, b',')?;
    push_arguments(out, &entry.request)?;
    push_reply(out, &entry.reply)?;
    push_byte(out, b']')
}

#[tactic(auto, unfolding(crate::specs::Lines::line_text))]
fn push_line(out: &mut Vec<u8>, entry: &Entry) -> Result<(), AllocError>
    ensures { OnOk result (out.new.items ≡ out.old.items ++ line_text entry.now) }
{
    push_entry(out, entry)?;
    push_byte(out, b'\n')
}

/// Appends the lines of some entries, one for each, in one pass and time linear in them. Want of memory is the one error; then some
/// of the lines may stand there.
pub fn push_journal(out: &mut Vec<u8>, entries: &[Entry]) -> Result<(), AllocError>
    ensures { OnOk result (out.new.items ≡ out.old.items ++ journal_text entries.now) }
{
    for entry in entries {
        push_line(out, entry)?;
    }
    Ok(())
}

/// The text of a journal: a line for each entry, refused requests included, each ended by LF (docs/formats.md, "Journal lines"). The
/// time is linear in the text; want of memory is the one error.
pub fn journal_text(alloc: Global, journal: &Journal) -> Result<Blob, AllocError>
    ensures { IfOk result (λ b. b ≡ journal_text journal.now) }
{
    let mut text = Vec::new(alloc);
    push_journal(&mut text, journal.as_slice())?;
    Blob::of(text)
}
