//! The fields of a row where its bytes spell them.
ghost use Rattle.std.specs.Prelude.{◌≡◌, option_map};
ghost use Rattle.ks_row.specs.Fields.{field_seen, field_there, member_there, field_among, field_within};

use crate::reading::{read_bytes, read_i64, read_u32};

/// A number, or the bytes of a text.
#[derive(Clone, Copy)]
pub enum FieldRef<'a> {
    Int(i64),
    Text(&'a [u8]),
}

// A field, and the bytes after it; what the letters of a text are isn't asked.
#[tactic(auto, unfolding(crate::specs::Fields::field_there))]
fn look_at_field(bytes: &[u8]) -> Option<(FieldRef<'_>, &[u8])>
    ensures { option_map (λ x. (field_seen x.0, x.1.now)) result ≡ field_there bytes.now }
{
    match bytes {
        [0, rest @ ..] => {
            let (number, rest) = read_i64(rest)?;
            Some((FieldRef::Int(number), rest))
        }
        [1, rest @ ..] => {
            let (length, rest) = read_u32(rest)?;
            let (text, rest) = read_bytes(length as usize, rest)?;
            Some((FieldRef::Text(text), rest))
        }
        _ => None,
    }
}

// A member's name and its field, and the bytes after it.
#[tactic(auto, unfolding(crate::specs::Fields::member_there))]
fn look_at_member(bytes: &[u8]) -> Option<(&[u8], FieldRef<'_>, &[u8])>
    ensures { option_map (λ x. ((x.0.now, field_seen x.1), x.2.now)) result
        ≡ member_there bytes.now }
{
    let (length, rest) = bytes.split_first()?;
    let (name, rest) = read_bytes(*length as usize, rest)?;
    let (field, rest) = look_at_field(rest)?;
    Some((name, field, rest))
}

// The first field of a name among so many members; none where there is none.
fn find_field<'a>(name: &[u8], count: u8, bytes: &'a [u8]) -> Option<FieldRef<'a>>
    ensures { option_map field_seen result ≡ field_among name.now count bytes.now }
{
    let mut left = count;
    let mut rest = bytes;
    while left > 0 {
        let (own, field, more) = look_at_member(rest)?;
        if own == name {
            return Some(field);
        }
        left -= 1;
        rest = more;
    }
    None
}

/// The field of a name in the row that these bytes spell; none where it has no such name. Takes no memory.
pub(crate) fn field_in<'a>(row: &'a [u8], name: &[u8]) -> Option<FieldRef<'a>>
    ensures { option_map field_seen result ≡ field_within name.now row.now }
{
    let (count, rest) = row.split_first()?;
    find_field(name, *count, rest)
}
