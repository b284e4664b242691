//! A row as bytes: each row has one spelling, and no bytes spell two rows.
ghost use Rattle.std.specs.Prelude.{◌≡◌, ◌++◌, map, IfOk, IfSome, OnOk, Some, List};
ghost use Rattle.ks_row.specs.Rows.{Member, IsRow};
ghost use Rattle.ks_record.specs.Texts.{IsName};
ghost use Rattle.ks_row.specs.Fields.{field_seen, member_seen, number_row};
ghost use Rattle.ks_row.specs.Spelling.{field_bytes, member_bytes, spelling, FitsField, FitsMember, FitsRow};
ghost use Rattle.ks_row.specs.Codecs.{IsCodec};
ghost use Rattle.ks_row.specs.Reading.{row_from};

use crate::field_ref::FieldRef;
use crate::row::{Field, Row};
use ks_record::{Blob, BlobBuilder, Name};
use std::alloc::{AllocError, Global};

fn push_field(out: &mut BlobBuilder, field: FieldRef<'_>) -> Result<(), AllocError>
    requires { FitsField (field_seen field) }
    ensures { OnOk result (out.new ≡ out.old ++ field_bytes (field_seen field.entry)) }
{
    match field {
        FieldRef::Int(number) => {
            out.push(0)?;
            out.extend_from_slice(&number.to_be_bytes())?;
        }
        FieldRef::Text(bytes) => {
            out.push(1)?;
            out.extend_from_slice(&(bytes.len() as u32).to_be_bytes())?;
            out.extend_from_slice(bytes)?;
        }
    }
    Ok(())
}

#[tactic(auto, unfolding(crate::specs::Spelling::member_bytes))]
fn push_member(out: &mut BlobBuilder, name: &[u8], field: FieldRef<'_>) -> Result<(), AllocError>
    requires { FitsMember (name.now, field_seen field) }
    ensures { OnOk result (out.new ≡ out.old
        ++ member_bytes (name.now, field_seen field.entry)) }
{
    out.push(name.len() as u8)?;
    out.extend_from_slice(name)?;
    push_field(out, field)
}

// A member with its own memory.
fn push_own(out: &mut BlobBuilder, name: &Name, field: &Field) -> Result<(), AllocError>
    ensures bytes { OnOk result (out.new ≡ out.old
        ++ member_bytes (name.now, field.now)) }
    ensures fits { OnOk result (FitsMember (name.now, field.now)) }
{
    push_member(out, name.as_str().as_bytes(), field.as_ref())
}

/// The bytes that spell these members.
#[tactic(auto, unfolding(crate::specs::Spelling::spelling))]
pub(crate) fn spell(alloc: Global, members: &[(Name, Field)]) -> Result<Blob, AllocError>
    requires { IsRow members.now }
    ensures bytes { IfOk result (λ b. b ≡ spelling members.now) }
    ensures fits { OnOk result (FitsRow members.now) }
{
    let mut out = BlobBuilder::new(alloc);
    out.push(members.len() as u8)?;
    for (name, field) in members {
        push_own(&mut out, name, field)?;
    }
    out.into_blob()
}

/// The same of members where they stand.
#[tactic(auto, unfolding(crate::specs::Spelling::spelling))]
pub(crate) fn spell_refs(
    alloc: Global,
    members: &[(&[u8], FieldRef<'_>)],
) -> Result<Blob, AllocError>
    requires { FitsRow (map member_seen members.now) }
    ensures { IfOk result (λ b. b ≡ spelling (map member_seen members.now)) }
{
    let mut out = BlobBuilder::new(alloc);
    out.push(members.len() as u8)?;
    for member in members {
        push_member(&mut out, member.0, member.1)?;
    }
    out.into_blob()
}

/// The bytes that spell a row of one number.
#[tactic(auto, using(crate::proofs::Kept::one_spelled, crate::proofs::Kept::number_fits))]
pub(crate) fn spell_number(alloc: Global, name: &[u8], number: i64) -> Result<Blob, AllocError>
    requires { IsName name.now }
    ensures bytes { IfOk result (λ b. b ≡ spelling (number_row number name.now)) }
    ensures fits { OnOk result (FitsRow (number_row number name.now)) }
{
    let mut out = BlobBuilder::new(alloc);
    out.push(1)?;
    push_member(&mut out, name, FieldRef::Int(number))?;
    out.into_blob()
}

/// The bytes that spell the row, with their own memory or shared with the row's.
pub fn encode(_alloc: Global, row: &Row) -> Result<Blob, AllocError>
    ensures bytes { IfOk result (λ b. b ≡ spelling row.now) }
    ensures fits { OnOk result (FitsRow row.now) }
{
    row.copy_bytes()
}

/// The row that the bytes spell, all of them; none where they spell no row.
pub fn decode(alloc: Global, bytes: &[u8]) -> Result<Option<Row>, AllocError>
    // What is read is spelled so.
    ensures found { IfOk result (λ o. IfSome o (λ r. FitsRow r × (bytes.now ≡ spelling r))) }
    // What is spelled so is read.
    ensures only { (ms : List Member) → FitsRow ms → bytes.now ≡ spelling ms
        → IfOk result (λ o. o ≡ Some ms) }
    ensures exact { IfOk result (λ o. o ≡ row_from bytes.now) }
{
    Row::from_bytes(alloc, bytes)
}

/// The row again, from its bytes.
pub fn reread(alloc: Global, row: &Row) -> Result<Option<Row>, AllocError>
    ensures { IfOk result (λ o. o ≡ Some row.now) }
{
    let bytes = encode(alloc, row)?;
    decode(alloc, bytes.as_slice())
}

/// A law: no bytes spell two rows.
pub fn spelling_is_injective()
    ensures { (a b : List Member) → FitsRow a → FitsRow b → spelling a ≡ spelling b → a ≡ b }
{}

/// A law: spelling and reading undo one another, over all rows and all bytes.
pub fn reading_undoes_spelling()
    ensures { IsCodec row_from spelling FitsRow }
{}
