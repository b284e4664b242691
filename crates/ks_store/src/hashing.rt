//! How keys are hashed.
ghost use Rattle.std.specs.Prelude.{◌≡◌, ◌<◌, length};
ghost use Rattle.std.specs.Hash.FoldHasher.{folded_multiply};
ghost use Rattle.ks_store.specs.Hashing.{mixed, start_by, after_tail, after_write, padded};

use std::hash::{BuildHasher, Hasher};

const MULTIPLIER: u64 = 0x9e37_79b9_7f4a_7c15;

/// A fast hasher that is not cryptographic: it multiplies each eight bytes to 128 bits, and joins the halves by xor.
#[derive(Clone, Copy)]
pub struct KeyHasher {
    state: u64,
}

// The two halves of the 128 bits of a product, joined by xor.
fn folded_product(a: u64, b: u64) -> u64
    ensures { result ≡ folded_multiply a b }
{
    let product = a as u128 * b as u128;
    (product & 0xFFFF_FFFF_FFFF_FFFF) as u64 ^ (product >> 64) as u64
}

// The state after a word.
fn mix(state: u64, word: u64) -> u64
    ensures { result ≡ mixed state word }
{
    folded_product(state ^ word, MULTIPLIER)
}

// Fewer than eight bytes, then zeros, then how many bytes they are.
fn pad(bytes: &[u8]) -> [u8; 8]
    requires { length bytes.now < 8 }
    ensures { result ≡ padded 7 bytes.now }
{
    let mut all = [0u8; 8];
    let count = bytes.len();
    all[..count].copy_from_slice(bytes);
    all[7] = count as u8;
    all
}

// The state after fewer than eight bytes.
fn mix_tail(state: u64, bytes: &[u8]) -> u64
    requires { length bytes.now < 8 }
    ensures { result ≡ after_tail state bytes.now }
{
    if bytes.is_empty() {
        return state;
    }
    mix(state, u64::from_le_bytes(pad(bytes)))
}

impl Hasher for KeyHasher {
    ghost use Rattle.std.specs.Prelude.{ℕ};

    ghost write = { λ h bytes. record { state = after_write h.state bytes } };

    ghost finish = { λ h. h.state };

    fn finish(&self) -> u64 {
        self.state
    }

    fn write(&mut self, bytes: &[u8]) {
        let mut state = self.state;
        let mut rest = bytes;
        while let Some((word, more)) = rest.split_first_chunk::<8>() {
            state = mix(state, u64::from_le_bytes(*word));
            rest = more;
        }
        self.state = mix_tail(state, rest);
    }

    fn write_u8(&mut self, i: u8) {
        self.state = mix(self.state, u64::from_le_bytes([i, 0, 0, 0, 0, 0, 0, 1]));
    }

    fn write_u64(&mut self, i: u64) {
        self.state = mix(self.state, i);
    }

    fn write_usize(&mut self, i: usize) {
        self.state = mix(self.state, i as u64);
    }
}

/// Begins each hash of a key with a seed.
#[derive(Clone, Copy)]
pub struct KeyHashing {
    begun: KeyHasher,
}

impl KeyHashing {
    /// Hashes that begin with this seed. Takes no memory.
    pub fn new(seed: u64) -> KeyHashing
        ensures { result.begun.state ≡ start_by seed }
    {
        KeyHashing {
            begun: KeyHasher {
                state: mix(0x243f_6a88_85a3_08d3, seed),
            },
        }
    }
}

impl BuildHasher for KeyHashing {
    type Hasher = KeyHasher;

    ghost build_hasher = { λ k. k.begun };

    fn build_hasher(&self) -> KeyHasher {
        self.begun
    }
}
