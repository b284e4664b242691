//! Short keys, which stand in a table themselves.
ghost use Rattle.std.specs.Prelude.{◌≡◌, ◌≤◌, ◌+◌, ◌==◌, IfOk, length, take, nat_eq};
ghost use Rattle.std.specs.List.{starts_with};
ghost use Rattle.std.proofs.Common.{ap};
ghost use Rattle.std.specs.Cmp.{partial_equiv_from_equiv};
ghost use Rattle.std.specs.Cmp.Lexicographic.{pointwise, bytes_decides, nat_list_eq_equiv};
ghost use Rattle.ks_store.specs.Hashing.{padded};
ghost use Rattle.ks_store.specs.ShortKeys.{word_at, key_fed};

use ks_record::Blob;
use std::alloc::{AllocError, Global};
use std::hash::{Hash, Hasher};
use std::marker::Model;

/// The most bytes that a short key has.
pub const MAX_SHORT: usize = 23;

/// The bytes of a key that has no more than `MAX_SHORT`, as three words: 24 bytes with the lowest first, which are the key, then zeros,
/// then its length. They are hashed and compared by words.
#[derive(Drop)]
pub struct ShortKey {
    low: u64,
    middle: u64,
    high: u64,
}

impl Model for ShortKey {
    ghost use Rattle.std.specs.Prelude.{ℕ, List};
    ghost use Rattle.ks_store.specs.ShortKeys.{key_bytes, AreWords};

    ghost Value = { List ℕ };

    ghost view = { λ k. key_bytes k.low k.middle k.high };

    ghost invariant = { λ k. AreWords k.low k.middle k.high (key_bytes k.low k.middle k.high) };
}

// The bytes, then zeros, then how many bytes they are.
#[inline(always)]
fn pad(bytes: &[u8]) -> [u8; 24]
    requires { length bytes.now ≤ 23 }
    ensures { result ≡ padded 23 bytes.now }
{
    let mut all = [0u8; 24];
    let count = bytes.len();
    all[..count].copy_from_slice(bytes);
    all[MAX_SHORT] = count as u8;
    all
}

// The eight bytes from a place on.
#[inline(always)]
fn word(bytes: &[u8; 24], at: usize) -> u64
    requires { at + 8 ≤ 24 }
    ensures { result ≡ word_at bytes.now at }
{
    match bytes[at..].split_first_chunk::<8>() {
        Some((first, _)) => u64::from_le_bytes(*first),
        None => unreachable!(),
    }
}

impl ShortKey {
    /// A copy of these bytes; takes no memory.
    pub fn of(bytes: &[u8]) -> ShortKey
        requires { length bytes.now ≤ 23 }
        ensures { result ≡ bytes.now }
    {
        let all = pad(bytes);
        ShortKey {
            low: word(&all, 0),
            middle: word(&all, 8),
            high: word(&all, 16),
        }
    }

    // How many bytes it has.
    fn len(&self) -> usize
        ensures len { result ≡ length self.now }
        ensures most { result ≤ 23 }
    {
        self.high.to_le_bytes()[7] as usize
    }

    // Its bytes, and what stands behind them.
    fn to_bytes(&self) -> [u8; 24]
        ensures { take (length self.now) result ≡ self.now }
    {
        let a = self.low.to_le_bytes();
        let b = self.middle.to_le_bytes();
        let c = self.high.to_le_bytes();
        [
            a[0], a[1], a[2], a[3], a[4], a[5], a[6], a[7], b[0], b[1], b[2], b[3], b[4], b[5],
            b[6], b[7], c[0], c[1], c[2], c[3], c[4], c[5], c[6], c[7],
        ]
    }

    /// Whether it begins so.
    pub fn starts_with(&self, front: &[u8]) -> bool
        ensures { result ≡ starts_with ◌==◌ self.now front.now }
    {
        let all = self.to_bytes();
        let count = self.len();
        all[..count].starts_with(front)
    }

    /// A copy of its bytes.
    pub fn to_blob(&self, alloc: Global) -> Result<Blob, AllocError>
        ensures { IfOk result (λ b. b ≡ self.now) }
    {
        let all = self.to_bytes();
        let count = self.len();
        Blob::from_slice(alloc, &all[..count])
    }
}

impl PartialEq for ShortKey {
    ghost eq = { pointwise nat_eq };

    ghost laws = { partial_equiv_from_equiv nat_list_eq_equiv };

    fn eq(&self, other: &ShortKey) -> bool {
        self.low == other.low && self.middle == other.middle && self.high == other.high
    }
}

impl Eq for ShortKey {
    ghost laws = { nat_list_eq_equiv };
}

impl Hash for ShortKey {
    ghost hash_input = { key_fed };

    ghost respects_eq = { λ x y same. ap key_fed ((bytes_decides x y).0 same) };

    fn hash<H: Hasher>(&self, state: &mut H) {
        state.write_u64(self.low);
        state.write_u64(self.middle);
        state.write_u64(self.high);
    }
}
