//! Keys, names and texts: UTF-8 of a bounded length.
ghost use Rattle.std.specs.Prelude.{◌≡◌, ◌==◌, IfOk, IfSome, IsSome, ◌↔◌, Some, None, MatchOption, true, false};
ghost use Rattle.std.specs.Str.{is_utf8};
ghost use Rattle.std.specs.Fmt.{signed_decimal};
ghost use Rattle.std.proofs.Common.{rules};
ghost use Rattle.std.specs.Cmp.{partial_order_from_own_ties};
ghost use Rattle.std.specs.Cmp.Rules.{comparing};
ghost use Rattle.std.specs.Ordering.{nat_cmp, as_partial_cmp};
ghost use Rattle.std.specs.Cmp.Lexicographic.{slice_cmp, pointwise};
ghost use Rattle.ks_record.specs.Texts.{IsKey, IsName, IsText, key_of, name_of, text_of, key_from, name_from, text_from};

use crate::chars::Chars;
use std::alloc::{AllocError, Global};
use std::cmp::Ordering;
use std::marker::Model;
use std::str;

/// The text that the bytes spell; none where they are no UTF-8. Takes no memory.
pub fn utf8_text(bytes: &[u8]) -> Option<&str>
    ensures { MatchOption result (is_utf8 bytes.now ≡ false)
        (λ s. (s.now ≡ bytes.now) × (is_utf8 bytes.now ≡ true)) }
{
    match str::from_utf8(bytes) {
        Ok(text) => Some(text),
        Err(_) => None,
    }
}

/// The key of a record.
#[derive(Drop, Debug)]
pub struct Key {
    text: Chars,
}

impl Model for Key {
    ghost use Rattle.std.specs.Prelude.{ℕ, List};
    ghost use Rattle.ks_record.specs.Texts.{IsKey};

    ghost Value = { List ℕ };

    ghost view = { λ k. k.text };

    ghost invariant = { λ k. IsKey k.text };
}

impl Clone for Key {
    ghost is_clone = { λ k copy. copy ≡ k };

    fn clone(&self) -> Result<Key, AllocError> {
        Ok(Key {
            text: self.text.clone()?,
        })
    }
}

impl Key {
    /// The key of these bytes; none where they are no key.
    pub fn of(alloc: Global, bytes: &[u8]) -> Result<Option<Key>, AllocError>
        ensures key { IfOk result (λ o. IfSome o (λ k. k ≡ bytes.now)) }
        ensures exact { IfOk result (λ o. IsSome o ↔ IsKey bytes.now) }
        ensures reads { IfOk result (λ o. o ≡ key_from bytes.now) }
    {
        let Some(text) = utf8_text(bytes) else {
            return Ok(None);
        };
        Key::of_text(alloc, text)
    }

    /// Its characters, 1 to 1,024 bytes of UTF-8.
    pub fn as_str(&self) -> &str
        ensures bytes { result.now ≡ self.now }
        ensures key { IsKey self.now }
    {
        self.text.as_str()
    }
}

impl Key {
    /// The key of these characters; none where they are none, or more than 1,024 bytes.
    pub fn of_text(alloc: Global, text: &str) -> Result<Option<Key>, AllocError>
        ensures { IfOk result (λ o. o ≡ key_of text.now) }
    {
        if text.is_empty() {
            Ok(None)
        } else if text.len() <= 1024 {
            let text = Chars::from_str(alloc, text)?;
            Ok(Some(Key { text }))
        } else {
            Ok(None)
        }
    }
}

impl Key {
    /// The key of a number: its decimal text.
    pub fn of_number(alloc: Global, number: i64) -> Result<Key, AllocError>
        ensures { IfOk result (λ k. k ≡ signed_decimal number) }
    {
        let digits = format!(in alloc; "{number}")?;
        let text = Chars::from_str(alloc, digits.as_str())?;
        Ok(Key { text })
    }
}

impl PartialEq for Key {
    ghost eq = { pointwise ◌==◌ };

    ghost laws = { Prim.search (comparing, rules) };

    fn eq(&self, other: &Key) -> bool {
        self.text.as_str() == other.text.as_str()
    }
}

impl Eq for Key {
    ghost laws = { Prim.search (comparing, rules) };
}

impl PartialOrd for Key {
    ghost partial_cmp = { as_partial_cmp (slice_cmp nat_cmp) };

    ghost laws = { partial_order_from_own_ties (Prim.search (comparing, rules)) (Prim.search (comparing, rules)) };

    fn partial_cmp(&self, other: &Key) -> Option<Ordering> {
        Some(self.cmp(other))
    }
}

impl Ord for Key {
    ghost cmp = { slice_cmp nat_cmp };

    ghost total = { Prim.search (comparing, rules) };

    ghost matches_partial_cmp = { Prim.search (comparing, rules) };

    ghost matches_eq = { Prim.search (comparing, rules) };

    fn cmp(&self, other: &Key) -> Ordering {
        self.text.as_str().cmp(other.text.as_str())
    }
}

/// The name of a field.
#[derive(Drop, Debug)]
pub struct Name {
    text: Chars,
}

impl Model for Name {
    ghost use Rattle.std.specs.Prelude.{ℕ, List};
    ghost use Rattle.ks_record.specs.Texts.{IsName};

    ghost Value = { List ℕ };

    ghost view = { λ n. n.text };

    ghost invariant = { λ n. IsName n.text };
}

impl Name {
    /// The name of these bytes; none where they are no name.
    pub fn of(alloc: Global, bytes: &[u8]) -> Result<Option<Name>, AllocError>
        ensures name { IfOk result (λ o. IfSome o (λ n. n ≡ bytes.now)) }
        ensures exact { IfOk result (λ o. IsSome o ↔ IsName bytes.now) }
        ensures reads { IfOk result (λ o. o ≡ name_from bytes.now) }
    {
        let Some(text) = utf8_text(bytes) else {
            return Ok(None);
        };
        Name::of_text(alloc, text)
    }

    /// Its characters, 1 to 64 bytes of UTF-8.
    pub fn as_str(&self) -> &str
        ensures bytes { result.now ≡ self.now }
        ensures name { IsName self.now }
    {
        self.text.as_str()
    }
}

impl Name {
    /// The name of these characters; none where they are none, or more than 64 bytes.
    pub fn of_text(alloc: Global, text: &str) -> Result<Option<Name>, AllocError>
        ensures { IfOk result (λ o. o ≡ name_of text.now) }
    {
        if text.is_empty() {
            Ok(None)
        } else if text.len() <= 64 {
            let text = Chars::from_str(alloc, text)?;
            Ok(Some(Name { text }))
        } else {
            Ok(None)
        }
    }
}

impl Clone for Name {
    ghost is_clone = { λ n copy. copy ≡ n };

    fn clone(&self) -> Result<Name, AllocError> {
        Ok(Name {
            text: self.text.clone()?,
        })
    }
}

impl PartialEq for Name {
    ghost eq = { pointwise ◌==◌ };

    ghost laws = { Prim.search (comparing, rules) };

    fn eq(&self, other: &Name) -> bool {
        self.text.as_str() == other.text.as_str()
    }
}

impl Eq for Name {
    ghost laws = { Prim.search (comparing, rules) };
}

impl PartialOrd for Name {
    ghost partial_cmp = { as_partial_cmp (slice_cmp nat_cmp) };

    ghost laws = { partial_order_from_own_ties (Prim.search (comparing, rules)) (Prim.search (comparing, rules)) };

    fn partial_cmp(&self, other: &Name) -> Option<Ordering> {
        Some(self.cmp(other))
    }
}

impl Ord for Name {
    ghost cmp = { slice_cmp nat_cmp };

    ghost total = { Prim.search (comparing, rules) };

    ghost matches_partial_cmp = { Prim.search (comparing, rules) };

    ghost matches_eq = { Prim.search (comparing, rules) };

    fn cmp(&self, other: &Name) -> Ordering {
        self.text.as_str().cmp(other.text.as_str())
    }
}

/// The text of a field.
#[derive(Drop, Debug)]
pub struct Text {
    text: Chars,
}

impl Model for Text {
    ghost use Rattle.std.specs.Prelude.{ℕ, List};
    ghost use Rattle.ks_record.specs.Texts.{IsText};

    ghost Value = { List ℕ };

    ghost view = { λ t. t.text };

    ghost invariant = { λ t. IsText t.text };
}

impl Clone for Text {
    ghost is_clone = { λ t copy. copy ≡ t };

    fn clone(&self) -> Result<Text, AllocError> {
        Ok(Text {
            text: self.text.clone()?,
        })
    }
}

impl Text {
    /// The text of these bytes; none where they are no text.
    pub fn of(alloc: Global, bytes: &[u8]) -> Result<Option<Text>, AllocError>
        ensures text { IfOk result (λ o. IfSome o (λ t. t ≡ bytes.now)) }
        ensures exact { IfOk result (λ o. IsSome o ↔ IsText bytes.now) }
        ensures reads { IfOk result (λ o. o ≡ text_from bytes.now) }
    {
        let Some(text) = utf8_text(bytes) else {
            return Ok(None);
        };
        Text::of_text(alloc, text)
    }

    /// Its characters, 0 to 65,536 bytes of UTF-8.
    pub fn as_str(&self) -> &str
        ensures bytes { result.now ≡ self.now }
        ensures text { IsText self.now }
    {
        self.text.as_str()
    }
}

impl Text {
    /// The text of these characters; none where they are more than 65,536 bytes.
    pub fn of_text(alloc: Global, text: &str) -> Result<Option<Text>, AllocError>
        ensures { IfOk result (λ o. o ≡ text_of text.now) }
    {
        if text.len() <= 65536 {
            let text = Chars::from_str(alloc, text)?;
            Ok(Some(Text { text }))
        } else {
            Ok(None)
        }
    }
}
