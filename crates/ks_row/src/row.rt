//! Rows: names, strictly rising, each with its field.
ghost use Rattle.std.specs.Prelude.{◌≡◌, map, IfOk, IfSome, IsSome, ◌↔◌, option_map};
ghost use Rattle.std.specs.List.{All};
ghost use Rattle.std.specs.List.Sorted.{IsPermutation};
ghost use Rattle.ks_row.specs.Rows.{IsRow, HasRow, is_row, row_of, rises, names_of, field_of};
ghost use Rattle.ks_row.specs.FieldKeys.{field_key};
ghost use Rattle.ks_record.specs.Texts.{name_of};
ghost use Rattle.ks_row.specs.Fields.{field_seen, member_seen, number_row};
ghost use Rattle.ks_row.specs.Reading.{row_from};
ghost use Rattle.ks_row.specs.Judged.{row_in};
ghost use Rattle.ks_row.specs.Spelling.{spelling, FitsField, FitsMember, FitsRow};

use crate::codec::{spell, spell_number, spell_refs};
use crate::field_ref::{FieldRef, field_in};
use crate::reading::read_row_members;
use crate::validity::{is_below, spells_row};
use ks_record::{Blob, Key, Name, Text};
use std::alloc::{AllocError, Global};
use std::marker::Model;

/// A number or a text.
#[derive(Drop, Debug, Clone)]
pub enum Field {
    Int(i64),
    Text(Text),
}

impl Field {
    /// The field where it stands.
    pub fn as_ref(&self) -> FieldRef<'_>
        ensures seen { field_seen result ≡ self.now }
        ensures fits { FitsField self.now }
    {
        match self {
            Field::Int(number) => FieldRef::Int(*number),
            Field::Text(text) => FieldRef::Text(text.as_str().as_bytes()),
        }
    }
}

/// Names with their fields, by rising names: kept as the bytes that spell them, which contracts see as the members.
#[derive(Drop, Debug)]
pub struct Row {
    bytes: Blob,
}

/// A table's row before and after a step, at one key.
#[derive(Drop, Debug)]
pub struct Change {
    pub key: Key,
    pub old: Option<Row>,
    pub new: Option<Row>,
}

impl Model for Row {
    ghost use Rattle.std.specs.Prelude.{◌≡◌, List};
    ghost use Rattle.ks_row.specs.Rows.{Member};
    ghost use Rattle.ks_row.specs.Spelling.{spelling, FitsRow};
    ghost use Rattle.ks_row.specs.Judged.{row_in};

    ghost Value = { List Member };

    ghost view = { λ r. row_in r.bytes };

    ghost invariant = { λ r. FitsRow (row_in r.bytes) × (r.bytes ≡ spelling (row_in r.bytes)) };
}

impl Clone for Row {
    ghost is_clone = { λ r copy. copy ≡ r };

    fn clone(&self) -> Result<Row, AllocError> {
        Ok(Row {
            bytes: self.bytes.clone()?,
        })
    }
}

impl Row {
    /// The row that the bytes spell, all of them; none where they spell no row. Want of memory is the one error.
    #[tactic(auto, using(crate::proofs::Kept::kept_row, crate::proofs::Kept::seen_row, crate::proofs::Kept::no_row))]
    pub fn from_bytes(alloc: Global, bytes: &[u8]) -> Result<Option<Row>, AllocError>
        ensures { IfOk result (λ o. o ≡ row_from bytes.now) }
    {
        if spells_row(bytes) {
            Ok(Some(Row {
                bytes: Blob::from_slice(alloc, bytes)?,
            }))
        } else {
            Ok(None)
        }
    }

    /// The row of bytes that spell one. Want of memory is the one error.
    pub fn of_spelling(alloc: Global, bytes: &[u8]) -> Result<Row, AllocError>
        requires fits { FitsRow (row_in bytes.now) }
        requires bytes { bytes.now ≡ spelling (row_in bytes.now) }
        ensures { IfOk result (λ r. r ≡ row_in bytes.now) }
    {
        Ok(Row {
            bytes: Blob::from_slice(alloc, bytes)?,
        })
    }

    /// The bytes that spell it.
    pub fn as_bytes(&self) -> &[u8]
        ensures bytes { result.now ≡ spelling self.now }
        ensures fits { FitsRow self.now }
    {
        self.bytes.as_slice()
    }

    /// A copy of these bytes, of which more than 32 are shared. Want of memory is the one error.
    pub fn copy_bytes(&self) -> Result<Blob, AllocError>
        ensures bytes { IfOk result (λ b. b ≡ spelling self.now) }
        ensures fits { FitsRow self.now }
    {
        self.bytes.clone()
    }

    /// The same bytes, moved out.
    pub fn into_bytes(self) -> Blob
        ensures bytes { result ≡ spelling self }
        ensures fits { FitsRow self }
    {
        self.bytes
    }

    /// The field of a name; none where the row has no such name.
    #[tactic(auto, using(crate::proofs::Kept::field_found, crate::proofs::Kept::found_fits))]
    pub fn get(&self, name: &[u8]) -> Option<FieldRef<'_>>
        ensures value { option_map field_seen result ≡ field_of name.now self.now }
        ensures fits { IfSome (option_map field_seen result) FitsField }
    {
        field_in(self.bytes.as_slice(), name)
    }

    /// Its names with their fields, by rising names, each with its own memory. Want of memory is the one error.
    #[tactic(auto, using(crate::proofs::Kept::members_read))]
    pub fn members(&self, alloc: Global) -> Result<Vec<(Name, Field)>, AllocError>
        ensures value { IfOk result (λ v. v.items ≡ self.now) }
        ensures row { IsRow self.now }
    {
        match read_row_members(alloc, self.bytes.as_slice())? {
            Some(members) => Ok(members),
            None => unreachable!(),
        }
    }
}

impl Row {
    /// The row of these members, in order of names; none exactly where there is no member, or more than 64, or a name twice.
    pub fn of(alloc: Global, fields: Vec<(Name, Field)>) -> Result<Option<Row>, AllocError>
        // Members that rise and are those given: only one list is such.
        ensures row { IfOk result (λ o. IfSome o (λ r. IsRow r × IsPermutation fields.items r)) }
        ensures exact { IfOk result (λ o. IsSome o ↔ HasRow fields.items) }
    {
        if fields.is_empty() || fields.len() > 64 {
            return Ok(None);
        }
        let mut members = fields;
        members.sort_by(|a, b| a.0.cmp(&b.0))?;
        Row::from_rising(alloc, members.as_slice())
    }
}

impl Row {
    /// The row of these members; none where there is no member, or more than 64, or the names don't rise. Want of memory is the one
    /// error.
    #[tactic(auto, using(crate::proofs::Kept::made_row, crate::proofs::Kept::made_of))]
    pub fn from_rising(alloc: Global, fields: &[(Name, Field)]) -> Result<Option<Row>, AllocError>
        ensures { IfOk result (λ o. o ≡ row_of fields.now) }
    {
        if is_row(fields) {
            Ok(Some(Row {
                bytes: spell(alloc, fields)?,
            }))
        } else {
            Ok(None)
        }
    }

    /// The same of members where they stand, each a name with a field that has a spelling.
    #[tactic(auto, using(crate::proofs::Kept::made_row, crate::proofs::Kept::made_of))]
    pub fn from_refs(
        alloc: Global,
        fields: &[(&[u8], FieldRef<'_>)],
    ) -> Result<Option<Row>, AllocError>
        requires { All FitsMember (map member_seen fields.now) }
        ensures { IfOk result (λ o. o ≡ row_of (map member_seen fields.now)) }
    {
        if are_row(fields) {
            Ok(Some(Row {
                bytes: spell_refs(alloc, fields)?,
            }))
        } else {
            Ok(None)
        }
    }
}

impl Row {
    /// The row of one number by this name; none where the text is no name. Want of memory is the one error.
    #[tactic(auto, using(crate::proofs::Kept::made_row, crate::proofs::Kept::same_row))]
    pub fn of_number(alloc: Global, name: &str, number: i64) -> Result<Option<Row>, AllocError>
        ensures { IfOk result (λ o. o ≡ option_map (number_row number) (name_of name.now)) }
    {
        if name.is_empty() {
            Ok(None)
        } else if name.len() <= 64 {
            Ok(Some(Row {
                bytes: spell_number(alloc, name.as_bytes(), number)?,
            }))
        } else {
            Ok(None)
        }
    }
}

// Whether each name is below the next.
fn is_rising(fields: &[(Name, Field)]) -> bool
    ensures { result ≡ rises (names_of fields.now) }
{
    for i in 1..fields.len() {
        if fields[i - 1].0 < fields[i].0 {
            continue;
        }
        return false;
    }
    true
}

// Whether there are 1 to 64 members, and their names rise.
fn is_row(fields: &[(Name, Field)]) -> bool
    ensures { result ≡ is_row fields.now }
{
    if fields.is_empty() {
        false
    } else if fields.len() <= 64 {
        is_rising(fields)
    } else {
        false
    }
}

// Whether each name is below the next, of members where they stand.
fn are_rising(fields: &[(&[u8], FieldRef<'_>)]) -> bool
    ensures { result ≡ rises (names_of (map member_seen fields.now)) }
{
    for i in 1..fields.len() {
        if is_below(fields[i - 1].0, fields[i].0) {
            continue;
        }
        return false;
    }
    true
}

// The same as `is_row`, of members where they stand.
fn are_row(fields: &[(&[u8], FieldRef<'_>)]) -> bool
    ensures { result ≡ is_row (map member_seen fields.now) }
{
    if fields.is_empty() {
        false
    } else if fields.len() <= 64 {
        are_rising(fields)
    } else {
        false
    }
}

/// The key that a field of the row gives: a number's decimal text, or a text of 1 to 1,024 bytes as it is; none where
/// the row has no such field or its text is no key.
#[tactic(auto, using(crate::proofs::Kept::key_from_text))]
pub fn key_of_field(alloc: Global, row: &Row, name: &[u8]) -> Result<Option<Key>, AllocError>
    ensures { IfOk result (λ o. o ≡ field_key name.now row.now) }
{
    match row.get(name) {
        None => Ok(None),
        Some(FieldRef::Int(number)) => Ok(Some(Key::of_number(alloc, number)?)),
        Some(FieldRef::Text(text)) => Key::of(alloc, text),
    }
}
