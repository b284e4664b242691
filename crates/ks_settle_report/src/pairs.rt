//! Whether two records collide, and the first one that collides with another.
ghost use Rattle.std.specs.Prelude.{◌≡◌, IfOk, IfSome, OnOk, option_copied, option_map};
ghost use Rattle.ks_row.specs.Spelling.{FitsRow, spelling};
ghost use Rattle.ks_expr.specs.Eval.{same_bytes};
ghost use Rattle.ks_law_settled.specs.Collision.{row_by, same_keys, collide as collides, earlier as earlier_in};
ghost use Rattle.ks_settle_report.specs.Hashed.{row_hash, kind_as, is_same_hash};

use ks_hash::Hash128;
use ks_record::{Blob, Rec};
use ks_settle::rows::{StoredForm, read_row};
use std::alloc::{AllocError, Global};

/// Two records of a partition that collide.
#[derive(Drop)]
pub struct Collision {
    /// The bytes of their key.
    pub key: Option<Blob>,
    /// The lesser offset.
    pub first: u64,
    /// The greater offset.
    pub second: u64,
}

/// The bytes of the row that a record's value tells. `Err` only where memory ran out.
pub fn row_bytes(alloc: Global, shown: StoredForm, rec: &Rec) -> Result<Option<Blob>, AllocError>
    ensures bytes { IfOk result (λ o. o ≡ option_map spelling
        (row_by (kind_as shown) rec.now.value)) }
    ensures spelled { OnOk result (IfSome (row_by (kind_as shown) rec.now.value) FitsRow) }
{
    let Some(value) = rec.value() else {
        return Ok(None);
    };
    let Some(row) = read_row(alloc, shown, value)? else {
        return Ok(None);
    };
    Ok(Some(row.into_bytes()))
}

/// Whether these are the same bytes. Takes no memory.
pub fn are_equal(a: &[u8], b: &[u8]) -> bool
    ensures { result ≡ same_bytes a.now b.now }
{
    a == b
}

fn are_same_keys(a: Option<&[u8]>, b: Option<&[u8]>) -> bool
    ensures { result ≡ same_keys (option_copied a.entry) (option_copied b.entry) }
{
    match (a, b) {
        (Some(a), Some(b)) => are_equal(a, b),
        _ => false,
    }
}

fn is_same_key(a: &Rec, b: &Rec) -> bool
    ensures { result ≡ same_keys a.now.key b.now.key }
{
    are_same_keys(a.key(), b.key())
}

// Whether the bytes differ and have one hash.
fn is_hashed_alike<H: Hash128>(a: &Option<Blob>, b: &Option<Blob>) -> bool
    ensures { result ≡ is_same_hash H.hash_of a.now b.now }
{
    match (a, b) {
        (Some(a), Some(b)) => {
            !are_equal(a.as_slice(), b.as_slice()) && H::hash(a.as_slice()) == H::hash(b.as_slice())
        }
        _ => false,
    }
}

fn collide<H: Hash128>(
    alloc: Global,
    shown: StoredForm,
    a: &Rec,
    b: &Rec,
) -> Result<bool, AllocError>
    ensures { IfOk result (λ x. x ≡ collides (row_hash H.hash_of) (kind_as shown) a.now b.now) }
{
    if !is_same_key(a, b) {
        return Ok(false);
    }
    let one = row_bytes(alloc, shown, a)?;
    let other = row_bytes(alloc, shown, b)?;
    Ok(is_hashed_alike::<H>(&one, &other))
}

/// The offset of the first of these records with which another collides. `Err` only where memory ran out.
pub fn earlier<H: Hash128>(
    alloc: Global,
    shown: StoredForm,
    recs: &[(u64, Rec)],
    rec: &Rec,
) -> Result<Option<u64>, AllocError>
    ensures { IfOk result (λ o. o ≡ earlier_in (row_hash H.hash_of) (kind_as shown) rec.now
        recs.now) }
{
    let mut rest = recs;
    while let [first, more @ ..] = rest {
        if collide::<H>(alloc, shown, &first.1, rec)? {
            return Ok(Some(first.0));
        }
        rest = more;
    }
    Ok(None)
}
