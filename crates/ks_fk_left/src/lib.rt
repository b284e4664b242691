//! The left side of a foreign-key join: what a changed row asks of the right side, and what an answer sets (KIP-213).
#![tactic(auto)]

ghost use Rattle.std.specs.Prelude.{◌≡◌, ◌≤◌, ◌++◌, Some, None, IfOk, OnOk, option_copied, option_map, is_none, nat_eq};
ghost use Rattle.ks_row.specs.Spelling.{spelling};
ghost use Rattle.ks_expr.specs.Terms.{set_of};
ghost use Rattle.ks_expr.specs.Eval.{same_bytes, joined};
ghost use Rattle.ks_wire.specs.Values.{IsPart};
ghost use Rattle.ks_def_tasks.specs.Messages.{same_option};
ghost use Rattle.ks_def_tasks.specs.Foreign.{subscriptions, is_direct, key_of_row, respond as responded, hash_of};
ghost use Rattle.ks_fk_left.specs.Asked.{row_hash, told, asked, set_by};

use ks_expr::{Fk, JoinKind, Proj, fk_of};
use ks_hash::Hash128;
use ks_record::{Key, equal_bytes};
use ks_row::{Change, Row};
use ks_table_ops::join_rows;
use ks_wire::{Response, Subscription};
use std::alloc::{AllocError, Global};

// What a subscription asks of the right side.
const DELETE: u8 = 0;

const DELETE_AND_ANSWER: u8 = 1;

const ANSWER: u8 = 2;

/// What a response does to the join's result.
#[derive(Drop)]
pub enum Answer {
    /// It answers an older left row: the result stays.
    Stale,
    /// The result is this row, or goes.
    Set(Option<Row>),
}

/// The hash of a row's bytes. Takes no memory.
pub fn hash_row<H: Hash128>(row: &Row) -> u128
    ensures { result ≡ row_hash H.hash_of row.now }
{
    H::hash(row.as_bytes())
}

/// The foreign key of a left row of this key; none where there is no row, or it has none. Want of memory is the one error.
pub fn foreign_key(
    alloc: Global,
    fk: &Fk,
    left: &Key,
    row: Option<&Row>,
) -> Result<Option<Key>, AllocError>
    ensures { IfOk result (λ k. k ≡ key_of_row fk.now left.now (option_copied row.entry)) }
{
    match row {
        Some(row) => fk_of(alloc, fk, left, row),
        None => Ok(None),
    }
}

fn is_same_key(old: &Option<Key>, new: &Option<Key>) -> bool
    ensures { result ≡ same_option same_bytes old.now new.now }
{
    match (old, new) {
        (None, None) => true,
        (Some(before), Some(now)) => {
            equal_bytes(before.as_str().as_bytes(), now.as_str().as_bytes())
        }
        _ => false,
    }
}

fn push_asked(
    out: &mut Vec<(Key, Subscription)>,
    to: Option<Key>,
    hash: Option<u128>,
    instruction: u8,
    left: &Key,
    part: Option<u8>,
) -> Result<(), AllocError>
    requires instruction { instruction ≤ 3 }
    requires part { IsPart part }
    ensures { OnOk result (out.new.items ≡ out.old.items
        ++ asked to hash instruction left.now part) }
{
    if let Some(key) = to {
        out.push((
            key,
            Subscription::new(hash, instruction, left.clone()?, part),
        ))?;
    }
    Ok(())
}

/// The hash of a row, where there is one. Takes no memory.
pub fn hash_of_row<H: Hash128>(row: Option<&Row>) -> Option<u128>
    ensures { result ≡ hash_of (row_hash H.hash_of) (option_copied row.entry) }
{
    match row {
        Some(row) => Some(hash_row::<H>(row)),
        None => None,
    }
}

/// What a changed left row asks of the right side, by foreign key, the old one first; and whether the result is set at once,
/// since no answer will come: where the new row has no foreign key, or the deleted one had none. Each subscription names this partition,
/// at most 63, if any. Rows are hashed by H. Want of memory is the one error.
pub fn subscriptions<H: Hash128>(
    alloc: Global,
    fk: &Fk,
    part: Option<u8>,
    change: &Change,
) -> Result<(Vec<(Key, Subscription)>, bool), AllocError>
    requires part { IsPart part }
    ensures asked { IfOk result (λ r. r.0.items
        ≡ told change.now.key (subscriptions (row_hash H.hash_of) fk.now change.now.key part
        change.now.old change.now.new)) }
    ensures direct { IfOk result (λ r. r.1
        ≡ is_direct fk.now change.now.key change.now.old change.now.new) }
{
    let hash = hash_of_row::<H>(change.new.as_ref());
    subscriptions_by::<H>(alloc, fk, part, change, hash)
}

/// What a changed left row asks, by the hash of the new row, none where there is no new row. Each subscription names this partition, at
/// most 63, if any.
pub fn subscriptions_by<H: Hash128>(
    alloc: Global,
    fk: &Fk,
    part: Option<u8>,
    change: &Change,
    hash: Option<u128>,
) -> Result<(Vec<(Key, Subscription)>, bool), AllocError>
    requires part { IsPart part }
    requires hash { hash ≡ hash_of (row_hash H.hash_of) change.now.new }
    ensures asked { IfOk result (λ r. r.0.items
        ≡ told change.now.key (subscriptions (row_hash H.hash_of) fk.now change.now.key part
        change.now.old change.now.new)) }
    ensures direct { IfOk result (λ r. r.1
        ≡ is_direct fk.now change.now.key change.now.old change.now.new) }
{
    let mut out = Vec::with_capacity(alloc, 2)?;
    let before = foreign_key(alloc, fk, &change.key, change.old.as_ref())?;
    let Some(row) = &change.new else {
        let direct = before.is_none();
        push_asked(&mut out, before, None, DELETE_AND_ANSWER, &change.key, part)?;
        return Ok((out, direct));
    };
    let Ok(now) = foreign_key(alloc, fk, &change.key, Some(row)) else {
        drop(before);
        return Err(AllocError);
    };
    let direct = now.is_none();
    if is_same_key(&before, &now) {
        drop(before);
    } else {
        let Ok(()) = push_asked(&mut out, before, hash, DELETE, &change.key, part) else {
            drop(now);
            return Err(AllocError);
        };
    }
    push_asked(&mut out, now, hash, ANSWER, &change.key, part)?;
    Ok((out, direct))
}

/// Whether a response answers a left row of this hash, none where there is no row: their hashes are equal, or both are absent.
pub fn is_answer_to(hash: Option<u128>, response: &Response) -> bool
    ensures { result ≡ same_option nat_eq hash response.now.hash }
{
    match (hash, response.hash) {
        (None, None) => true,
        (Some(own), Some(told)) => own == told,
        _ => false,
    }
}

/// What a response does to the result of the join: nothing where its hash isn't that of the present left row (it is stale), else the result is
/// the join of this row with the row that it brings. Want of memory is the one error.
pub fn respond<H: Hash128>(
    alloc: Global,
    kind: JoinKind,
    set: &Proj,
    left: Option<&Row>,
    response: &Response,
) -> Result<Answer, AllocError>
    ensures { IfOk result (λ a. set_by a ≡ responded (row_hash H.hash_of) kind (set_of set.now)
        (option_copied left.entry) response.now) }
{
    if is_answer_to(hash_of_row::<H>(left), response) {
        Ok(Answer::Set(join_rows(alloc, kind, set, left, response.right.as_ref())?))
    } else {
        Ok(Answer::Stale)
    }
}
