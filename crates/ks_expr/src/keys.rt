//! The front part of a key, and the foreign key of a left row.
ghost use Rattle.std.specs.Prelude.{◌≡◌, ◌≤◌, ◌<◌, length, IfOk, IfSome, Some, None, List, ℕ, option_map, option_copied};
ghost use Rattle.ks_record.specs.Texts.{IsKey, IsName};
ghost use Rattle.ks_expr.specs.Keys.{place_in, front_of as front, spread_part as part_of, fk_of as foreign_key};

use crate::terms::Fk;
use ks_record::{Key, Name};
use ks_row::{Row, key_of_field};
use std::alloc::{AllocError, Global};

// How many bytes stand before the first place of a text that isn't empty.
fn first_place(text: &[u8], bytes: &[u8]) -> Option<usize>
    ensures place { result ≡ place_in text.now bytes.now }
    ensures within { IfSome result (λ n. n ≤ length bytes.now) }
{
    let mut place = 0;
    let mut rest = bytes;
    while let [_, more @ ..] = rest {
        if rest.starts_with(text) {
            return Some(place);
        }
        rest = more;
        place += 1;
    }
    None
}

/// What stands in the bytes of a key before the first place of a text; none where the text stands nowhere in them, or at their start.
/// Takes no memory.
pub fn front_of<'a>(text: &Name, key: &'a [u8]) -> Option<&'a [u8]>
    ensures front { option_map (λ x. x.now) result ≡ front text.now key.now }
    ensures name { IsName text.now }
{
    match first_place(text.as_str().as_bytes(), key) {
        None | Some(0) => None,
        Some(place) => Some(&key[..place]),
    }
}

/// The part of a key's bytes by which it is spread over partitions: where a text is stated, what stands before its first place, if that
/// is something; else the whole key. Takes no memory.
pub fn spread_part<'a>(before: Option<&Name>, key: &'a [u8]) -> &'a [u8]
    ensures { result.now ≡ part_of (option_copied before.entry) key.now }
{
    match before {
        None => key,
        Some(text) => match front_of(text, key) {
            None => key,
            Some(front) => front,
        },
    }
}

// The key that stands before the first place of a text in a key.
fn front_key(alloc: Global, text: &Name, key: &Key) -> Result<Option<Key>, AllocError>
    ensures { IfOk result (λ k. k ≡ front text.now key.now) }
{
    match front_of(text, key.as_str().as_bytes()) {
        None => Ok(None),
        Some(front) => Key::of(alloc, front),
    }
}

/// The foreign key of a left key and its row; none where they have none. Want of memory is the one error.
pub fn fk_of(alloc: Global, fk: &Fk, key: &Key, row: &Row) -> Result<Option<Key>, AllocError>
    ensures { IfOk result (λ k. k ≡ foreign_key fk.now key.now row.now) }
{
    match fk {
        Fk::Field(name) => key_of_field(alloc, row, name.as_str().as_bytes()),
        Fk::Whole => Ok(Some(key.clone()?)),
        Fk::Before(text) => front_key(alloc, text, key),
    }
}

/// A law: what stands before the first place of a name in a key is a key.
#[tactic(auto, using(crate::proofs::Fronts::front_is_key))]
pub fn fronts_are_keys()
    ensures { (s k : List ℕ) → IsName s → IsKey k → IfSome (front s k) IsKey }
{}
