//! Equality as a truth value, in the words of the orders.
ghost use Rattle.std.specs.Prelude.{◌≡◌};
ghost use Rattle.std.specs.Ordering.{nat_cmp, int_cmp, eq_by_cmp};
ghost use Rattle.std.specs.Cmp.Lexicographic.{slice_cmp};

/// Whether these are the same bytes. Takes no memory.
#[tactic(auto, using(crate::proofs::Ties::are_tied))]
pub fn equal_bytes(a: &[u8], b: &[u8]) -> bool
    ensures { result ≡ eq_by_cmp (slice_cmp nat_cmp) a.now b.now }
{
    a == b
}

/// Whether these are the same number.
pub fn equal_numbers(a: i64, b: i64) -> bool
    ensures { result ≡ eq_by_cmp int_cmp a b }
{
    a == b
}
