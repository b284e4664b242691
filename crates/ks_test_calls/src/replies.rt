//! What a store answers, as text; and whether a text or a number is another one.
use ks_store::StoreReply;
use std::alloc::{AllocError, Global};
use std::process::Abort;

/// Both texts are the same.
pub fn expect_text<R: Abort>(rt: &R, found: &[u8], expected: &[u8]) {
    assert_eq!(rt; found, expected);
}

/// Both numbers are the same.
pub fn expect_number<R: Abort>(rt: &R, found: u32, expected: u32) {
    assert_eq!(rt; found, expected);
}

/// A number, and these bytes behind it.
pub fn push_number(
    alloc: Global,
    number: u64,
    behind: &[u8],
    text: &mut Vec<u8>,
) -> Result<(), AllocError> {
    text.extend_from_slice(number.to_string(alloc)?.as_bytes())?;
    text.extend_from_slice(behind)
}

// A reply: the value of a key, how many pairs there are, or that it is done.
fn push_reply(alloc: Global, reply: &StoreReply, text: &mut Vec<u8>) -> Result<(), AllocError> {
    match reply {
        StoreReply::Done => text.extend_from_slice(b"done"),
        StoreReply::Found(Some(value)) => text.extend_from_slice(value.as_slice()),
        StoreReply::Found(None) => text.extend_from_slice(b"nothing"),
        StoreReply::Pairs(pairs) => push_number(alloc, pairs.len() as u64, b"", text),
    }
}

/// Each reply, with a blank behind it.
pub fn push_replies(
    alloc: Global,
    replies: &[StoreReply],
    text: &mut Vec<u8>,
) -> Result<(), AllocError> {
    for reply in replies {
        push_reply(alloc, reply, text)?;
        text.push(b' ')?;
    }
    Ok(())
}
