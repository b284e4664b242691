//! Reading the reply of a line.
ghost use Rattle.std.specs.Prelude.{◌≡◌, ◌^◌, [], true, IfSome, option_map};
ghost use Rattle.serde_json.specs.View.{view, items_view};
ghost use Rattle.ks_journal.specs.Replies.{is_reply_of, kind_of, refusals_of, refusal_number, is_among, number_reply, done_reply, truth_reply, mark_reply};
ghost use Rattle.ks_journal.specs.Reading.{first, owner_in, refusal_at, refusal_in, mark_in, refused_in, reply_in, reply_to_in};

use crate::values::{if_all, take_bool, take_part, take_task, take_u8, take_u32, take_u64};
use ks_history::{Reply, Request};
use ks_record::{PartId, Refused};
use serde_json::Value;

fn read_owner(value: &Value) -> Option<Option<u8>>
    ensures { result ≡ owner_in (view value.now) }
{
    if value.is_null() {
        return Some(None);
    }
    let worker = value.as_u64()?;
    if worker < 256 {
        Some(Some(worker as u8))
    } else {
        None
    }
}

fn take_owner(items: &[Value]) -> Option<(Option<u8>, &[Value])>
    ensures { option_map (λ x. (x.0, items_view x.1.now)) result
        ≡ first owner_in (items_view items.now) }
{
    let [first, rest @ ..] = items else {
        return None;
    };
    let owner = read_owner(first)?;
    Some((owner, rest))
}

// A refusal behind its number.
fn take_refusal(number: u8, items: &[Value]) -> Option<(Refused, &[Value])>
    ensures { option_map (λ x. (x.0, items_view x.1.now)) result
        ≡ refusal_at number (items_view items.now) }
{
    if number == 1 {
        let (expected, rest) = take_u64(items)?;
        Some((Refused::OutOfSequence { expected }, rest))
    } else if number == 2 {
        let (held, rest) = take_u64(items)?;
        Some((Refused::Fenced { held }, rest))
    } else if number == 3 {
        let (commit, rest) = take_bool(items)?;
        Some((Refused::AlreadyDecided { commit }, rest))
    } else if number == 4 {
        Some((Refused::NoTransaction, items))
    } else if number == 5 {
        let (now, rest) = take_u64(items)?;
        Some((Refused::OldGeneration { now }, rest))
    } else if number == 6 {
        let (owner, rest) = take_owner(items)?;
        Some((Refused::NotAssigned { owner }, rest))
    } else if number == 7 {
        let (producer, rest) = take_u8(items)?;
        Some((Refused::Unstable { producer }, rest))
    } else if number == 8 {
        let (left, rest) = take_u32(items)?;
        Some((Refused::MarkersWaiting { left }, rest))
    } else if number == 9 {
        let (task, rest) = take_task(items)?;
        Some((Refused::BadAssignment { task }, rest))
    } else {
        None
    }
}

fn read_refusal(items: &[Value]) -> Option<Refused>
    ensures { result ≡ refusal_in (items_view items.now) }
{
    let (number, rest) = take_u8(items)?;
    let (refused, rest) = take_refusal(number, rest)?;
    if_all(rest, refused)
}

fn refusal_number(refused: Refused) -> u8
    ensures { result ≡ refusal_number refused }
{
    match refused {
        Refused::OutOfSequence { .. } => 1,
        Refused::Fenced { .. } => 2,
        Refused::AlreadyDecided { .. } => 3,
        Refused::NoTransaction => 4,
        Refused::OldGeneration { .. } => 5,
        Refused::NotAssigned { .. } => 6,
        Refused::Unstable { .. } => 7,
        Refused::MarkersWaiting { .. } => 8,
        Refused::BadAssignment { .. } => 9,
    }
}

fn is_among(number: u8, names: &[u8]) -> bool
    ensures { result ≡ is_among number names.now }
{
    let mut rest = names;
    while let [name, more @ ..] = rest {
        if number == *name {
            return true;
        }
        rest = more;
    }
    false
}

fn read_named(names: &[u8], items: &[Value]) -> Option<Reply>
    ensures value { result ≡ refused_in names.now (items_view items.now) }
    ensures number { IfSome result (λ r. is_reply_of number_reply names.now r ≡ true) }
    ensures done { IfSome result (λ r. is_reply_of done_reply names.now r ≡ true) }
    ensures truth { IfSome result (λ r. is_reply_of truth_reply names.now r ≡ true) }
{
    let refused = read_refusal(items)?;
    if is_among(refusal_number(refused), names) {
        Some(Reply::Refused(refused))
    } else {
        None
    }
}

fn read_number(names: &[u8], value: &Value) -> Option<Reply>
    ensures value { result ≡ reply_in number_reply names.now (view value.now) }
    ensures kind { IfSome result (λ r. is_reply_of number_reply names.now r ≡ true) }
{
    if let Some(items) = value.as_array() {
        return read_named(names, items.as_slice());
    }
    let number = value.as_u64()?;
    Some(Reply::Number(number))
}

fn read_done(names: &[u8], value: &Value) -> Option<Reply>
    ensures value { result ≡ reply_in done_reply names.now (view value.now) }
    ensures kind { IfSome result (λ r. is_reply_of done_reply names.now r ≡ true) }
{
    if let Some(items) = value.as_array() {
        return read_named(names, items.as_slice());
    }
    let truth = value.as_bool()?;
    if truth { Some(Reply::Done) } else { None }
}

fn read_truth(names: &[u8], value: &Value) -> Option<Reply>
    ensures value { result ≡ reply_in truth_reply names.now (view value.now) }
    ensures kind { IfSome result (λ r. is_reply_of truth_reply names.now r ≡ true) }
{
    if let Some(items) = value.as_array() {
        return read_named(names, items.as_slice());
    }
    let truth = value.as_bool()?;
    Some(Reply::Truth(truth))
}

fn read_mark(value: &Value) -> Option<Option<(PartId, bool)>>
    ensures { result ≡ mark_in (view value.now) }
{
    if value.is_null() {
        return Some(None);
    }
    let items = value.as_array()?;
    let (part, rest) = take_part(items.as_slice())?;
    let (commit, rest) = take_bool(rest)?;
    if_all(rest, Some((part, commit)))
}

fn read_marked(value: &Value) -> Option<Reply>
    ensures value { result ≡ reply_in mark_reply [] (view value.now) }
    ensures kind { IfSome result (λ r. is_reply_of mark_reply [] r ≡ true) }
{
    let mark = read_mark(value)?;
    Some(Reply::Mark(mark))
}

/// The reply to a request.
pub(crate) fn read_reply(request: &Request, value: &Value) -> Option<Reply>
    ensures value { result ≡ reply_to_in request.now (view value.now) }
    ensures kind { IfSome result (λ r. is_reply_of (kind_of request.now) (refusals_of request.now) r
        ≡ true) }
{
    match request {
        Request::Produce { .. } => read_number(&[], value),
        Request::Init { .. } => read_number(&[], value),
        Request::Add { .. } => read_done(&[2, 8], value),
        Request::Append { .. } => read_number(&[2, 4, 1], value),
        Request::SendOffsets { .. } => read_done(&[2, 5, 6, 8, 7], value),
        Request::Decide { .. } => read_done(&[2, 3, 4], value),
        Request::MarkNext { .. } => read_marked(value),
        Request::Join { .. } => read_number(&[], value),
        Request::Expire { .. } => read_truth(&[], value),
        Request::Hold { .. } => read_done(&[], value),
        Request::Probe { .. } => read_number(&[5], value),
        Request::Assign { .. } => read_truth(&[5, 9], value),
        Request::Park { .. } => read_done(&[], value),
        Request::Unpark { .. } => read_truth(&[], value),
    }
}
