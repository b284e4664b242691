//! The values in a line: each call appends one to the text. After want of memory a part of it may stand there.
ghost use Rattle.std.specs.Prelude.{option_copied, ◌≡◌, ◌++◌, ◌∷◌, [], ◌<◌, OnOk, decimal};
ghost use Rattle.std.specs.Char.{digit_char};
ghost use Rattle.serde_json.specs.Data.{null, boolean, string};
ghost use Rattle.serde_json.specs.Written.{compact_text, comma_if};
ghost use Rattle.json.specs.Print.{escape};
ghost use Rattle.ks_record.specs.Records.{record_seen};
ghost use Rattle.ks_journal.specs.Lines.{hex, bytes_data, rec_data, task_data, pair_data, place_data, recs_data, pairs_data, places_data};

use ks_record::{RecordRef, SharedRecords, TaskId};
use std::alloc::AllocError;

// One byte.
pub(crate) fn push_byte(out: &mut Vec<u8>, byte: u8) -> Result<(), AllocError>
    ensures { OnOk result (out.new.items ≡ out.old.items ++ byte ∷ []) }
{
    out.push(byte)?;
    Ok(())
}

// One digit.
#[tactic(auto, using(crate::proofs::Plain::decimal_is_digit))]
fn push_digit(out: &mut Vec<u8>, digit: u64) -> Result<(), AllocError>
    requires { digit < 10 }
    ensures { OnOk result (out.new.items ≡ out.old.items ++ decimal digit) }
{
    push_byte(out, 48 + digit as u8)
}

// The decimal digits of a number.
pub(crate) fn push_number(out: &mut Vec<u8>, number: u64) -> Result<(), AllocError>
    ensures { OnOk result (out.new.items ≡ out.old.items ++ decimal number) }
{
    if number < 10 {
        return push_digit(out, number);
    }
    push_number(out, number / 10)?;
    push_digit(out, number % 10)
}

// The digit of a number below 16, in lower case.
fn hex_digit(value: u8) -> u8
    requires { value < 16 }
    ensures { result ≡ digit_char value }
{
    if value < 10 { 48 + value } else { 87 + value }
}

// Two digits of base 16 for each byte.
fn push_hex(out: &mut Vec<u8>, bytes: &[u8]) -> Result<(), AllocError>
    ensures { OnOk result (out.new.items ≡ out.old.items ++ hex bytes.now) }
{
    for byte in bytes {
        push_byte(out, hex_digit(*byte / 16))?;
        push_byte(out, hex_digit(*byte % 16))?;
    }
    Ok(())
}

// `true` or `false`.
pub(crate) fn push_truth(out: &mut Vec<u8>, truth: bool) -> Result<(), AllocError>
    ensures { OnOk result (out.new.items ≡ out.old.items ++ compact_text (boolean truth)) }
{
    out.extend_from_slice(if truth { b"true" } else { b"false" })
}

// `null`.
pub(crate) fn push_null(out: &mut Vec<u8>) -> Result<(), AllocError>
    ensures { OnOk result (out.new.items ≡ out.old.items ++ compact_text null) }
{
    out.extend_from_slice(b"null")
}

// A text of which no byte is escaped, in quotes.
pub(crate) fn push_plain(out: &mut Vec<u8>, text: &str) -> Result<(), AllocError>
    requires plain { escape text.now ≡ text.now }
    ensures { OnOk result (out.new.items ≡ out.old.items ++ compact_text (string text.now)) }
{
    push_byte(out, b'"')?;
    out.extend_from_slice(text.as_bytes())?;
    push_byte(out, b'"')
}

// A task, as `"S_P"`.
pub(crate) fn push_task(out: &mut Vec<u8>, task: TaskId) -> Result<(), AllocError>
    ensures { OnOk result (out.new.items ≡ out.old.items ++ compact_text (task_data task)) }
{
    push_byte(out, b'"')?;
    push_number(out, task.sub as u64)?;
    push_byte(out, b'_')?;
    push_number(out, task.part as u64)?;
    push_byte(out, b'"')
}

// Bytes in base 16, in quotes.
fn push_some_bytes(out: &mut Vec<u8>, bytes: &[u8]) -> Result<(), AllocError>
    ensures { OnOk result (out.new.items ≡ out.old.items ++ compact_text (string (hex bytes.now))) }
{
    push_byte(out, b'"')?;
    push_hex(out, bytes)?;
    push_byte(out, b'"')
}

// The same, or `null`.
fn push_bytes(out: &mut Vec<u8>, bytes: Option<&[u8]>) -> Result<(), AllocError>
    ensures { OnOk result (out.new.items ≡ out.old.items
        ++ compact_text (bytes_data (option_copied bytes.entry))) }
{
    match bytes {
        Some(bytes) => push_some_bytes(out, bytes),
        None => push_null(out),
    }
}

// `[KEY,VALUE,TS]`.
pub(crate) fn push_rec(out: &mut Vec<u8>, rec: RecordRef<'_>) -> Result<(), AllocError>
    ensures { OnOk result (out.new.items ≡ out.old.items
        ++ compact_text (rec_data (record_seen rec.entry))) }
{
    push_byte(out, b'[')?;
    push_bytes(out, rec.key)?;
    push_byte(out, b',')?;
    push_bytes(out, rec.value)?;
    push_byte(out, b',')?;
    push_number(out, rec.ts)?;
    push_byte(out, b']')
}

// `[A,B]`.
pub(crate) fn push_pair(out: &mut Vec<u8>, pair: (u16, u64)) -> Result<(), AllocError>
    ensures { OnOk result (out.new.items ≡ out.old.items ++ compact_text (pair_data pair)) }
{
    push_byte(out, b'[')?;
    push_number(out, pair.0 as u64)?;
    push_byte(out, b',')?;
    push_number(out, pair.1)?;
    push_byte(out, b']')
}

// `["S_P",NUMBER]`.
fn push_place(out: &mut Vec<u8>, task: TaskId, number: u64) -> Result<(), AllocError>
    ensures { OnOk result (out.new.items ≡ out.old.items
        ++ compact_text (place_data (task, number))) }
{
    push_byte(out, b'[')?;
    push_task(out, task)?;
    push_byte(out, b',')?;
    push_number(out, number)?;
    push_byte(out, b']')
}

// A comma before all items but the first.
fn push_comma(out: &mut Vec<u8>, later: bool) -> Result<(), AllocError>
    ensures { OnOk result (out.new.items ≡ out.old.items ++ comma_if later) }
{
    if later {
        push_byte(out, b',')?;
    }
    Ok(())
}

// `[REC,..]`.
pub(crate) fn push_recs(out: &mut Vec<u8>, recs: &SharedRecords) -> Result<(), AllocError>
    ensures { OnOk result (out.new.items ≡ out.old.items ++ compact_text (recs_data recs.now)) }
{
    push_byte(out, b'[')?;
    let mut later = false;
    for place in 0..recs.len() {
        push_comma(out, later)?;
        push_rec(out, recs.get(place))?;
        later = true;
    }
    push_byte(out, b']')
}

// `[[T,NUMBER],..]`.
pub(crate) fn push_pairs(out: &mut Vec<u8>, pairs: &[(u16, u64)]) -> Result<(), AllocError>
    ensures { OnOk result (out.new.items ≡ out.old.items ++ compact_text (pairs_data pairs.now)) }
{
    push_byte(out, b'[')?;
    let mut later = false;
    for pair in pairs {
        push_comma(out, later)?;
        push_pair(out, *pair)?;
        later = true;
    }
    push_byte(out, b']')
}

// `[["S_P",POSITION],..]`.
pub(crate) fn push_positions(
    out: &mut Vec<u8>,
    positions: &[(TaskId, u64)],
) -> Result<(), AllocError>
    ensures { OnOk result (out.new.items ≡ out.old.items
        ++ compact_text (places_data positions.now)) }
{
    push_byte(out, b'[')?;
    let mut later = false;
    for (task, position) in positions {
        push_comma(out, later)?;
        push_place(out, *task, *position)?;
        later = true;
    }
    push_byte(out, b']')
}

// `[["S_P",W],..]`.
pub(crate) fn push_places(out: &mut Vec<u8>, places: &[(TaskId, u8)]) -> Result<(), AllocError>
    ensures { OnOk result (out.new.items ≡ out.old.items ++ compact_text (places_data places.now)) }
{
    push_byte(out, b'[')?;
    let mut later = false;
    for (task, worker) in places {
        push_comma(out, later)?;
        push_place(out, *task, *worker as u64)?;
        later = true;
    }
    push_byte(out, b']')
}
