//! The left side of joins: what it asks, and what it makes of an answer.
ghost use Rattle.std.specs.Prelude.{◌≡◌, ◌≤◌, false, IfSome};

use crate::calls::{Changed, Form};
use crate::given::{Given, change, foreign_key, row};
use ks_expr::{Fk, JoinKind};
use ks_fk_left::{Answer, respond, subscriptions};
use ks_hash::Hash128;
use ks_record::Key;
use ks_row::{Change, Row, encode};
use ks_table_ops::joined_after;
use ks_wire::{Response, Subscription, write_subscription};
use std::alloc::{AllocError, Global};
use std::process::Abort;

/// Whether a partition is named that is above this one.
pub fn is_above(part: Option<u8>, most: u8) -> bool
    ensures { result ≡ false → IfSome part (λ i. i ≤ most) }
{
    match part {
        Some(part) => part > most,
        None => false,
    }
}

fn push_row(alloc: Global, row: Option<&Row>, text: &mut Vec<u8>) -> Result<(), AllocError> {
    match row {
        Some(row) => text.extend_from_slice(encode(alloc, row)?.as_slice()),
        None => Ok(()),
    }
}

fn push_joined(
    alloc: Global,
    given: &Given,
    left: &Change,
    right: &Change,
    text: &mut Vec<u8>,
) -> Result<(), AllocError> {
    let row = joined_after(alloc, JoinKind::Inner, &given.set, left, right)?;
    let pushed = push_row(alloc, row.as_ref(), text);
    drop(row);
    pushed
}

/// The row of an inner join of these changes.
pub fn join_after<R: Abort>(
    rt: &R,
    alloc: Global,
    given: &Given,
    left: Changed,
    right: Changed,
    text: &mut Vec<u8>,
) -> Result<(), AllocError> {
    let left = change(rt, alloc, left);
    let right = change(rt, alloc, right);
    let pushed = push_joined(alloc, given, &left, &right, text);
    drop(left);
    drop(right);
    pushed
}

fn push_asked(
    alloc: Global,
    foreign: &Key,
    subscription: &Subscription,
    text: &mut Vec<u8>,
) -> Result<(), AllocError> {
    text.extend_from_slice(foreign.as_str().as_bytes())?;
    text.push(b' ')?;
    text.extend_from_slice(write_subscription(alloc, subscription)?.as_slice())?;
    text.push(b' ')?;
    Ok(())
}

fn push_all_asked(
    alloc: Global,
    sent: &[(Key, Subscription)],
    is_direct: bool,
    text: &mut Vec<u8>,
) -> Result<(), AllocError> {
    for (foreign, subscription) in sent {
        push_asked(alloc, foreign, subscription, text)?;
    }
    if is_direct {
        return text.extend_from_slice(b"direct");
    }
    Ok(())
}

fn push_subscriptions<H: Hash128>(
    alloc: Global,
    fk: &Fk,
    part: Option<u8>,
    change: &Change,
    text: &mut Vec<u8>,
) -> Result<(), AllocError> {
    if is_above(part, 63) {
        return text.extend_from_slice(b"nothing");
    }
    let (sent, is_direct) = subscriptions::<H>(alloc, fk, part, change)?;
    push_all_asked(alloc, sent.as_slice(), is_direct, text)
}

/// What a changed left row asks, each as the foreign key and the subscription.
pub fn subscribe<H: Hash128, R: Abort>(
    rt: &R,
    alloc: Global,
    fk: Form,
    part: Option<u8>,
    left: Changed,
    text: &mut Vec<u8>,
) -> Result<(), AllocError> {
    let fk = foreign_key(rt, alloc, fk);
    let change = change(rt, alloc, left);
    let pushed = push_subscriptions::<H>(alloc, &fk, part, &change, text);
    drop(change);
    drop(fk);
    pushed
}

fn push_response<H: Hash128>(
    alloc: Global,
    given: &Given,
    kind: JoinKind,
    left: Option<&Row>,
    response: &Response,
    text: &mut Vec<u8>,
) -> Result<(), AllocError> {
    match respond::<H>(alloc, kind, &given.set, left, response)? {
        Answer::Set(row) => push_row(alloc, row.as_ref(), text),
        Answer::Stale => text.extend_from_slice(b"stale"),
    }
}

/// What an answer does to the result of a join.
pub fn respond_to<H: Hash128, R: Abort>(
    rt: &R,
    alloc: Global,
    given: &Given,
    kind: JoinKind,
    left: &[u8],
    answer: (Option<u128>, &[u8]),
    text: &mut Vec<u8>,
) -> Result<(), AllocError> {
    let left = row(rt, alloc, left);
    let response = Response {
        hash: answer.0,
        right: row(rt, alloc, answer.1),
    };
    let pushed = push_response::<H>(alloc, given, kind, left.as_ref(), &response, text);
    drop(response);
    drop(left);
    pushed
}
