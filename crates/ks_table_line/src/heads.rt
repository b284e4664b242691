//! The head of a table, read back.
ghost use Rattle.std.specs.Prelude.{◌≡◌, ◌++◌, ◌∷◌, ◌<◌, ◌^◌, [], ℕ, List, true, Some, IfOk, IfSome, decimal, length};
ghost use Rattle.ks_query.specs.Printed.{head_line};

use ks_query::print_head;
use std::alloc::{AllocError, Global};
use std::str;

// The number of 64 bits that these digits write.
fn read_count(digits: &[u8]) -> Option<usize>
    ensures { (n : ℕ) → n < 2 ^ 64 → digits.now ≡ decimal n → result ≡ Some n }
{
    let Ok(text) = str::from_utf8(digits) else {
        return None;
    };
    match text.parse::<usize>() {
        Ok(count) => Some(count),
        Err(_) => None,
    }
}

fn are_same(a: &[u8], b: &[u8]) -> bool
    ensures yes { result ≡ true → a.now ≡ b.now }
    ensures no { a.now ≡ b.now → result ≡ true }
{
    a == b
}

/// Whether a line is this text without its last byte.
pub(crate) fn is_without_end(line: &[u8], text: &[u8]) -> bool
    ensures yes { result ≡ true → (front : List ℕ) → text.now ≡ front ++ 10 ∷ []
        → line.now ++ 10 ∷ [] ≡ text.now }
    ensures no { line.now ++ 10 ∷ [] ≡ text.now → result ≡ true }
{
    if text.len() != line.len() + 1 {
        return false;
    }
    are_same(&text[..line.len()], line)
}

/// The number of rows that the head of a table of this name tells, by a line without its end; none where it is no such head. Want of memory
/// is the one error.
pub fn read_head(alloc: Global, name: &str, line: &[u8]) -> Result<Option<usize>, AllocError>
    ensures found { IfOk result (λ o. IfSome o (λ n.
        line.now ++ 10 ∷ [] ≡ head_line name.now n)) }
    ensures only { (n : ℕ) → n < 2 ^ 64 → line.now ++ 10 ∷ [] ≡ head_line name.now n
        → IfOk result (λ o. o ≡ Some n) }
{
    let begins = name.len() + 7;
    if line.len() < begins {
        return Ok(None);
    }
    let Some(count) = read_count(&line[begins..]) else {
        return Ok(None);
    };
    let text = print_head(alloc, name, count)?;
    if is_without_end(line, text.as_bytes()) {
        Ok(Some(count))
    } else {
        Ok(None)
    }
}
