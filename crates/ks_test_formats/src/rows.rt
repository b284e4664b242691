//! Rows and their bytes.
use ks_record::{Name, Text};
use ks_row::{Field, Row, decode, encode, reread};
use std::alloc::{AllocError, Global};
use std::process::Abort;

#[derive(Clone, Copy)]
enum Value<'a> {
    Number(i64),
    Words(&'a str),
}

fn field<R: Abort>(rt: &R, alloc: Global, value: Value) -> Field {
    match value {
        Value::Number(number) => Field::Int(number),
        Value::Words(words) => match Text::of_text(alloc, words) {
            Ok(Some(text)) => Field::Text(text),
            _ => rt.abort(),
        },
    }
}

fn member<R: Abort>(rt: &R, alloc: Global, name: &str, value: Value) -> (Name, Field) {
    match Name::of_text(alloc, name) {
        Ok(Some(name)) => (name, field(rt, alloc, value)),
        _ => rt.abort(),
    }
}

// The row of these members; none where they are none.
fn row_of<R: Abort>(
    rt: &R,
    alloc: Global,
    members: &[(&str, Value)],
) -> Result<Option<Row>, AllocError> {
    let mut fields = Vec::new(alloc);
    for (name, value) in members {
        let field = member(rt, alloc, name, *value);
        fields.push(field).expect(rt, "memory");
    }
    Row::of(alloc, fields)
}

// The bytes of a row, once it was read from its own bytes.
fn push_reread(alloc: Global, row: &Row, text: &mut Vec<u8>) -> Result<(), AllocError> {
    match reread(alloc, row)? {
        Some(again) => {
            let pushed = push_row(alloc, &again, text);
            drop(again);
            pushed
        }
        None => Ok(()),
    }
}

fn push_row(alloc: Global, row: &Row, text: &mut Vec<u8>) -> Result<(), AllocError> {
    text.extend_from_slice(encode(alloc, row)?.as_slice())
}

/// Both texts are the same.
pub fn expect_text<R: Abort>(rt: &R, found: &[u8], expected: &[u8]) {
    assert_eq!(rt; found, expected);
}

// The row has these bytes, also once it was read from its own; no byte where there is no row.
fn expect_bytes<R: Abort>(
    rt: &R,
    alloc: Global,
    row: Result<Option<Row>, AllocError>,
    bytes: &[u8],
) {
    let mut text = Vec::new(alloc);
    match &row {
        Ok(Some(row)) => push_reread(alloc, row, &mut text).expect(rt, "memory"),
        Ok(None) => {}
        Err(_) => rt.abort(),
    }
    drop(row);
    expect_text(rt, text.as_slice(), bytes);
}

/// Members in any order, and the bytes of their row; no byte where they are no row.
const ROWS: &[(&[(&str, Value)], &[u8])] = &[
    (
        &[("n", Value::Number(1))],
        b"\x01\x01n\x00\x00\x00\x00\x00\x00\x00\x00\x01",
    ),
    (
        &[("r", Value::Words("eu"))],
        b"\x01\x01r\x01\x00\x00\x00\x02eu",
    ),
    (
        &[("n", Value::Number(-1)), ("a", Value::Words(""))],
        b"\x02\x01a\x01\x00\x00\x00\x00\x01n\x00\xff\xff\xff\xff\xff\xff\xff\xff",
    ),
    (
        &[("\u{e9}", Value::Number(-9_223_372_036_854_775_808))],
        b"\x01\x02\xc3\xa9\x00\x80\x00\x00\x00\x00\x00\x00\x00",
    ),
    (&[], b""),
    (&[("n", Value::Number(1)), ("n", Value::Number(1))], b""),
];

/// Bytes that spell no row: no byte, no field, a field too few, a byte after the row, a field more than is counted, names that fall, a name
/// twice, a name without a byte, a name that is no UTF-8, a kind of field that is none, a number of seven bytes, a text that is too short,
/// one that is too long, one that is no UTF-8, a length of three bytes.
const NO_ROWS: &[&[u8]] = &[
    b"",
    b"\x00",
    b"\x01",
    b"\x01\x01n\x00\x00\x00\x00\x00\x00\x00\x00\x01\x00",
    b"\x01\x01a\x01\x00\x00\x00\x00\x01b\x01\x00\x00\x00\x00",
    b"\x02\x01b\x01\x00\x00\x00\x00\x01a\x01\x00\x00\x00\x00",
    b"\x02\x01a\x01\x00\x00\x00\x00\x01a\x01\x00\x00\x00\x00",
    b"\x01\x00\x01\x00\x00\x00\x00",
    b"\x01\x01\xff\x01\x00\x00\x00\x00",
    b"\x01\x01a\x02\x00\x00\x00\x00",
    b"\x01\x01n\x00\x00\x00\x00\x00\x00\x00\x01",
    b"\x01\x01r\x01\x00\x00\x00\x03eu",
    b"\x01\x01r\x01\x00\x00\x00\x01eu",
    b"\x01\x01r\x01\x00\x00\x00\x01\xc3",
    b"\x01\x01r\x01\x00\x00\x00",
];

#[test]
fn rows_and_their_bytes(rt: HostRuntime) {
    let alloc = rt.alloc();
    for (members, bytes) in ROWS {
        expect_bytes(&rt, alloc, row_of(&rt, alloc, members), bytes);
        expect_bytes(&rt, alloc, decode(alloc, bytes), bytes);
    }
    for bytes in NO_ROWS {
        expect_bytes(&rt, alloc, decode(alloc, bytes), b"");
    }
}
