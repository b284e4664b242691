//! The record of a plain line, read from its bytes, with no JSON value between: members as `topic`, `key`, `value` and `ts`, no blanks,
//! ASCII without escapes, whole numbers of up to 18 digits. Any other line gives none.
ghost use Rattle.std.specs.Prelude.{◌≡◌, true, map, Some, None, IfOk, IfSome, option_map, if◌then◌else◌};
ghost use Rattle.ks_row.specs.Fields.{field_seen, member_seen};
ghost use Rattle.ks_job_record.specs.Plain.{field_of};
ghost use Rattle.ks_job_record.specs.PlainRows.{IsMadeField, IsPut, TakesMember, ClosesRow, place_among};
ghost use Rattle.ks_job_record.specs.PlainLines.{IsFront, IsEnd, EndsLine};
ghost use Rattle.ks_job_record.specs.PlainGrammar.{fit_field, with_one, one_at, members_at, front_at, row_at, end_at, record_at, value_record, plain_record};
ghost use Rattle.ks_job_record.specs.Says.{Says};

use crate::pieces::{Plain, after, behind, split_digits, split_member, split_quoted};
use crate::record::{Input, topic_number};
use ks_record::{Blob, Name, Rec, RecordRef};
use ks_row::{FieldRef, Row, is_below, is_name, is_text};
use std::alloc::{AllocError, Global};
use std::str;

const MOST_MEMBERS: usize = 16;

const MOST_TIME: u64 = 9_007_199_254_740_992;

// A line up to the value of its record.
#[derive(Clone, Copy)]
struct Front<'a> {
    topic: u16,
    key: &'a [u8],
    rest: &'a [u8],
}

// A member of a row where it stands: its name and its field.
type Member<'a> = (&'a [u8], FieldRef<'a>);

// The field where it stands; none where its text is too long.
fn see_field(plain: Plain<'_>) -> Option<FieldRef<'_>>
    ensures sound { IfSome result (λ f. IsMadeField (field_of plain.entry) (field_seen f)) }
    ensures exact { option_map field_seen result ≡ fit_field (field_of plain.entry) }
{
    match plain {
        Plain::Number(number) => Some(FieldRef::Int(number)),
        Plain::Text(text) => {
            if is_text(text) {
                Some(FieldRef::Text(text))
            } else {
                None
            }
        }
    }
}

// Where a name belongs among members in order of names; none where it stands there.
fn find_place(fields: &[Member<'_>], name: &[u8]) -> Option<usize>
    ensures { result ≡ place_among 0 name.now (map member_seen fields.now) }
{
    for place in 0..fields.len() {
        if is_below(name, fields[place].0) {
            return Some(place);
        }
        if !is_below(fields[place].0, name) {
            return None;
        }
    }
    Some(fields.len())
}

// Puts a member at its place. Whether it is one, and its name wasn't there.
#[tactic(auto, unfolding(crate::specs::PlainGrammar::with_one))]
fn put_member<'a>(
    fields: &mut Vec<Member<'a>>,
    name: &'a [u8],
    plain: Plain<'a>,
) -> Result<bool, AllocError>
    ensures sound { IfOk result (λ b. b ≡ true → IsPut (name.now, field_of plain.entry)
        (map member_seen fields.old.items) (map member_seen fields.new.items)) }
    ensures exact { IfOk result (λ b. (if b then Some (map member_seen fields.new.items) else None)
        ≡ with_one (name.now, field_of plain.entry) (map member_seen fields.old.items)) }
{
    if !is_name(name) {
        return Ok(false);
    }
    let Some(field) = see_field(plain) else {
        return Ok(false);
    };
    let Some(place) = find_place(fields.as_slice(), name) else {
        return Ok(false);
    };
    fields.insert(place, (name, field))?;
    Ok(true)
}

#[tactic(auto, using(crate::proofs::PlainRows::takes), unfolding(crate::specs::PlainGrammar::one_at))]
fn take_member<'a>(
    fields: &mut Vec<Member<'a>>,
    bytes: &'a [u8],
) -> Result<Option<&'a [u8]>, AllocError>
    ensures sound { IfOk result (λ o. IfSome o (λ rest.
        TakesMember (map member_seen fields.old.items) bytes.now (map member_seen fields.new.items)
        rest.now)) }
    ensures exact { IfOk result (λ o.
        option_map (λ rest. (map member_seen fields.new.items, rest.now)) o
        ≡ one_at (map member_seen fields.old.items) bytes.now) }
{
    let Some((name, plain, rest)) = split_member(bytes) else {
        return Ok(None);
    };
    if put_member(fields, name, plain)? {
        Ok(Some(rest))
    } else {
        Ok(None)
    }
}

// Puts the members up to the closing brace at their places; the bytes behind it.
fn take_members<'a>(
    fields: &mut Vec<Member<'a>>,
    bytes: &'a [u8],
) -> Result<Option<&'a [u8]>, AllocError>
    ensures sound { IfOk result (λ o. IfSome o (λ rest.
        ClosesRow (map member_seen fields.old.items) bytes.now (map member_seen fields.new.items)
        rest.now)) }
    ensures exact { IfOk result (λ o.
        option_map (λ rest. (map member_seen fields.new.items, rest.now)) o
        ≡ members_at 16 (map member_seen fields.old.items) bytes.now) }
{
    let mut rest = bytes;
    for _ in 0..MOST_MEMBERS {
        let Some(more) = take_member(fields, rest)? else {
            return Ok(None);
        };
        if let Some(end) = behind(more, b'}') {
            return Ok(Some(end));
        }
        let Some(next) = behind(more, b',') else {
            return Ok(None);
        };
        rest = next;
    }
    Ok(None)
}

#[tactic(auto, unfolding(crate::specs::PlainGrammar::front_at))]
fn split_front<'a>(topics: &[Name], line: &'a [u8]) -> Option<Front<'a>>
    ensures sound { IfSome result (λ f. IsFront topics.now line.now f.topic f.key.now f.rest.now) }
    ensures exact { option_map (λ f. ((f.topic, f.key.now), f.rest.now)) result
        ≡ front_at topics.now line.now }
{
    let (topic, rest) = split_quoted(after(line, b"{\"topic\":\"")?)?;
    let (key, rest) = split_quoted(after(rest, b",\"key\":\"")?)?;
    let rest = after(rest, b",\"value\":")?;
    let Ok(topic) = str::from_utf8(topic) else {
        return None;
    };
    let topic = topic_number(topic, topics)?;
    if key.is_empty() || key.len() > 1024 {
        return None;
    }
    Some(Front { topic, key, rest })
}

// The time at the end of a line, 0 where none is given.
#[tactic(auto, unfolding(crate::specs::PlainGrammar::end_at, crate::specs::PlainGrammar::time_at))]
fn read_end(bytes: &[u8]) -> Option<u64>
    ensures sound { IfSome result (λ n. IsEnd bytes.now n) }
    ensures exact { result ≡ end_at bytes.now }
{
    if bytes == b"}".as_slice() {
        return Some(0);
    }
    let (time, rest) = split_digits(after(bytes, b",\"ts\":")?)?;
    if time <= MOST_TIME && rest == b"}".as_slice() {
        Some(time)
    } else {
        None
    }
}

#[tactic(auto, unfolding(crate::specs::PlainGrammar::record_at))]
fn end_record(
    alloc: Global,
    front: Front<'_>,
    value: Option<Blob>,
    rest: &[u8],
) -> Result<Option<Input>, AllocError>
    ensures sound { IfOk result (λ o. IfSome o (λ i.
        EndsLine front.entry.topic front.entry.key.now value rest.now i)) }
    ensures exact { IfOk result (λ o.
        o ≡ record_at (front.entry.topic, front.entry.key.now) value rest.now) }
{
    let Some(ts) = read_end(rest) else {
        return Ok(None);
    };
    let value = match &value {
        Some(value) => Some(value.as_slice()),
        None => None,
    };
    let key = Some(front.key);
    Ok(Some(Input {
        topic: front.topic,
        rec: Rec::of(alloc, RecordRef { key, value, ts })?,
    }))
}

#[tactic(auto, unfolding(crate::specs::PlainGrammar::row_at, crate::specs::PlainGrammar::value_record))]
fn read_row_record(
    alloc: Global,
    topics: &[Name],
    line: &[u8],
    front: Front<'_>,
) -> Result<Option<Input>, AllocError>
    requires { IsFront topics.now line.now front.topic front.key.now front.rest.now }
    ensures sound { IfOk result (λ o. IfSome o (λ i. Says topics.now line.now i)) }
    ensures exact { IfOk result (λ o.
        o ≡ value_record (front.entry.topic, front.entry.key.now) (row_at front.entry.rest.now)) }
{
    let Some(members) = behind(front.rest, b'{') else {
        return Ok(None);
    };
    let mut fields = Vec::with_capacity(alloc, 4)?;
    let Some(rest) = take_members(&mut fields, members)? else {
        return Ok(None);
    };
    let Some(row) = Row::from_refs(alloc, fields.as_slice())? else {
        return Ok(None);
    };
    end_record(alloc, front, Some(row.into_bytes()), rest)
}

/// The record of a plain line: the line is the text of a JSON value, of which `read_input` gives this record. `None`: the line isn't plain, or
/// has a fault; it is to be read as JSON. Keys and texts are copied. `Err` only where memory ran out.
#[tactic(auto, unfolding(crate::specs::PlainGrammar::plain_record, crate::specs::PlainGrammar::null_at, crate::specs::PlainGrammar::value_record))]
pub fn read_plain(alloc: Global, topics: &[Name], line: &[u8]) -> Result<Option<Input>, AllocError>
    ensures says { IfOk result (λ o. IfSome o (λ i. Says topics.now line.now i)) }
    ensures plain { IfOk result (λ o. o ≡ plain_record topics.now line.now) }
{
    let Some(front) = split_front(topics, line) else {
        return Ok(None);
    };
    match after(front.rest, b"null") {
        Some(rest) => end_record(alloc, front, None, rest),
        None => read_row_record(alloc, topics, line, front),
    }
}
