//! A line read back.
ghost use Rattle.std.specs.Prelude.{◌≡◌, false, true, None, Some, IfOk, IfSome};
ghost use Rattle.serde_json.specs.View.{view, items_view};
ghost use Rattle.ks_history.specs.declared.journal.Entry.{Entry as EntryView};
ghost use Rattle.ks_journal.specs.Lines.{entry_text};
ghost use Rattle.ks_journal.specs.Replies.{HasReply};
ghost use Rattle.ks_journal.specs.Fits.{FitsEntry};
ghost use Rattle.ks_journal.specs.Reading.{entry_after, entry_at, entry_in};

use crate::fits::{reply_fits, request_fits};
use crate::reading::take_request;
use crate::replies::read_reply;
use crate::values::if_all;
use ks_history::{Entry, Request};
use ks_journal::push_journal;
use serde_json::Value;
use std::alloc::{AllocError, Global};
use std::slice;

// The entry of a request and the reply that stands last.
fn read_last(request: Request, items: &[Value]) -> Option<Entry>
    ensures value { result ≡ entry_after request (items_view items.now) }
    ensures kind { IfSome result (λ e. HasReply e) }
{
    let [first, rest @ ..] = items else {
        return None;
    };
    let reply = read_reply(&request, first)?;
    if_all(rest, Entry { request, reply })
}

fn read_entry(alloc: Global, items: &[Value]) -> Result<Option<Entry>, AllocError>
    ensures value { IfOk result (λ o. o ≡ entry_at (items_view items.now)) }
    ensures kind { IfOk result (λ o. IfSome o (λ e. HasReply e)) }
{
    let [first, rest @ ..] = items else {
        return Ok(None);
    };
    let Some(name) = first.as_str() else {
        return Ok(None);
    };
    let Some((request, rest)) = take_request(alloc, name, rest)? else {
        return Ok(None);
    };
    Ok(read_last(request, rest))
}

fn read_value(alloc: Global, value: &Value) -> Result<Option<Entry>, AllocError>
    ensures value { IfOk result (λ o. o ≡ entry_in (view value.now)) }
    ensures kind { IfOk result (λ o. IfSome o (λ e. HasReply e)) }
{
    match value.as_array() {
        Some(items) => read_entry(alloc, items.as_slice()),
        None => Ok(None),
    }
}

// The entry that the value of a line tells, whatever its spelling.
fn parse(alloc: Global, line: &[u8]) -> Result<Option<Entry>, AllocError>
    ensures only { (e : EntryView) → FitsEntry e → line.now ≡ entry_text e
        → IfOk result (λ o. o ≡ Some e) }
    ensures kind { IfOk result (λ o. IfSome o (λ e. HasReply e)) }
{
    match Value::from_slice(alloc, line) {
        Ok(value) => read_value(alloc, &value),
        Err(error) => {
            if error.is_memory() {
                Err(AllocError)
            } else {
                Ok(None)
            }
        }
    }
}

// The line of an entry, without its end.
#[tactic(auto, unfolding(ks_journal::specs::Lines::line_text))]
fn print_entry(alloc: Global, entry: &Entry) -> Result<Vec<u8>, AllocError>
    ensures { IfOk result (λ v. v.items ≡ entry_text entry.now) }
{
    let mut text = Vec::new(alloc);
    push_journal(&mut text, slice::from_ref(entry))?;
    text.pop();
    Ok(text)
}

// Whether this is the line of an entry, without its end.
fn is_line_of(alloc: Global, entry: &Entry, line: &[u8]) -> Result<bool, AllocError>
    ensures yes { IfOk result (λ b. b ≡ true → line.now ≡ entry_text entry.now) }
    ensures no { IfOk result (λ b. b ≡ false → line.now ≡ entry_text entry.now → ⊥) }
{
    let text = print_entry(alloc, entry)?;
    Ok(text.as_slice() == line)
}

/// The entry whose line this is, without its end; none where it is the line of no entry. The time is linear in the line. Want of memory is
/// the one error.
pub fn read_line(alloc: Global, line: &[u8]) -> Result<Option<Entry>, AllocError>
    // The line is the text of what is found, byte for byte; its numbers are within their types, and its reply is one that the request can have.
    ensures found { IfOk result (λ o. IfSome o (λ e. line.now ≡ entry_text e)) }
    ensures fits { IfOk result (λ o. IfSome o FitsEntry) }
    // The line of an entry gives that entry.
    ensures only { (e : EntryView) → FitsEntry e → line.now ≡ entry_text e
        → IfOk result (λ o. o ≡ Some e) }
{
    let Some(entry) = parse(alloc, line)? else {
        return Ok(None);
    };
    match is_line_of(alloc, &entry, line) {
        Ok(true) => {
            request_fits(&entry.request);
            reply_fits(&entry.reply);
            Ok(Some(entry))
        }
        Ok(false) => {
            drop(entry);
            Ok(None)
        }
        Err(error) => {
            drop(entry);
            Err(error)
        }
    }
}
