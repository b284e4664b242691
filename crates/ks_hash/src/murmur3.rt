//! Hashes of 128 bits: MurmurHash3.
ghost use Rattle.ks_hash.specs.Bounded.{murmur3_below, zero_below};
ghost use Rattle.std.specs.Prelude.{◌≡◌, ◌<◌, ◌≤◌, ◌^◌, ◌/◌, ℕ, List, length, slice_index};
ghost use Rattle.std.specs.Int.{w64, from_le_bytes};
ghost use Rattle.ks_hash.specs.Murmur3.{word1, word2, half1, half2, fmix, with_block, after_blocks, with_tail, finished, murmur3_of};

const C1: u64 = 0x87c3_7b91_1142_53d5;

const C2: u64 = 0x4cf5_ad43_2745_937f;

#[tactic(auto, unfolding(crate::specs::Murmur3::word1))]
fn mix_word1(k: u64) -> u64
    ensures { result ≡ word1 k }
{
    k.wrapping_mul(C1).rotate_left(31).wrapping_mul(C2)
}

#[tactic(auto, unfolding(crate::specs::Murmur3::word2))]
fn mix_word2(k: u64) -> u64
    ensures { result ≡ word2 k }
{
    k.wrapping_mul(C2).rotate_left(33).wrapping_mul(C1)
}

#[tactic(auto, unfolding(crate::specs::Murmur3::half1))]
fn mix_half1(h1: u64, h2: u64, k: u64) -> u64
    ensures { result ≡ half1 h1 h2 k }
{
    (h1 ^ mix_word1(k))
        .rotate_left(27)
        .wrapping_add(h2)
        .wrapping_mul(5)
        .wrapping_add(0x52dc_e729)
}

#[tactic(auto, unfolding(crate::specs::Murmur3::half2))]
fn mix_half2(h1: u64, h2: u64, k: u64) -> u64
    ensures { result ≡ half2 h1 h2 k }
{
    (h2 ^ mix_word2(k))
        .rotate_left(31)
        .wrapping_add(h1)
        .wrapping_mul(5)
        .wrapping_add(0x3849_5ab5)
}

#[tactic(auto, unfolding(crate::specs::Murmur3::fmix))]
fn final_mix(k: u64) -> u64
    ensures { result ≡ fmix k }
{
    let k = (k ^ (k >> 33)).wrapping_mul(0xff51_afd7_ed55_8ccd);
    let k = (k ^ (k >> 33)).wrapping_mul(0xc4ce_b9fe_1a85_ec53);
    k ^ (k >> 33)
}

fn first_word(bytes: &[u8]) -> u64
    requires { 8 ≤ length bytes.now }
    ensures { result ≡ from_le_bytes w64 bytes.now }
{
    u64::from_le_bytes([
        bytes[0], bytes[1], bytes[2], bytes[3], bytes[4], bytes[5], bytes[6], bytes[7],
    ])
}

#[tactic(auto, unfolding(crate::specs::Murmur3::with_block))]
fn mix_block(h1: u64, h2: u64, k1: u64, k2: u64) -> (u64, u64)
    ensures { record { h1 = result.0; h2 = result.1 }
        ≡ with_block (record { h1 = h1; h2 = h2 }) k1 k2 }
{
    let h1 = mix_half1(h1, h2, k1);
    let h2 = mix_half2(h1, h2, k2);
    (h1, h2)
}

fn mix_blocks(bytes: &[u8]) -> (u64, u64)
    ensures { record { h1 = result.0; h2 = result.1 }
        ≡ after_blocks (length bytes.now / 16) (record { h1 = 0; h2 = 0 }) bytes.now }
{
    let count = bytes.len() / 16;
    let mut h1 = 0;
    let mut h2 = 0;
    for i in 0..count {
        let rest = &bytes[16 * i..];
        let (new1, new2) = mix_block(h1, h2, first_word(rest), first_word(&rest[8..]));
        h1 = new1;
        h2 = new2;
    }
    (h1, h2)
}

fn byte_at(bytes: &[u8], i: usize) -> u8
    ensures { result ≡ slice_index bytes.now i }
{
    bytes.get(i).copied().unwrap_or(0)
}

// The first word, with zeros above fewer than 8 bytes.
fn padded_word(bytes: &[u8]) -> u64
    ensures { result ≡ from_le_bytes w64 bytes.now }
{
    u64::from_le_bytes([
        byte_at(bytes, 0),
        byte_at(bytes, 1),
        byte_at(bytes, 2),
        byte_at(bytes, 3),
        byte_at(bytes, 4),
        byte_at(bytes, 5),
        byte_at(bytes, 6),
        byte_at(bytes, 7),
    ])
}

#[tactic(auto, unfolding(crate::specs::Murmur3::with_tail))]
fn mix_tail(h1: u64, h2: u64, tail: &[u8]) -> (u64, u64)
    ensures { record { h1 = result.0; h2 = result.1 }
        ≡ with_tail (record { h1 = h1; h2 = h2 }) tail.now }
{
    if tail.len() > 8 {
        (
            h1 ^ mix_word1(padded_word(tail)),
            h2 ^ mix_word2(padded_word(&tail[8..])),
        )
    } else if !tail.is_empty() {
        (h1 ^ mix_word1(padded_word(tail)), h2)
    } else {
        (h1, h2)
    }
}

#[tactic(auto, unfolding(crate::specs::Murmur3::finished))]
fn finish(length: u64, h1: u64, h2: u64) -> u128
    ensures { result ≡ finished length (record { h1 = h1; h2 = h2 }) }
{
    let h1 = h1 ^ length;
    let h2 = h2 ^ length;
    let h1 = h1.wrapping_add(h2);
    let h2 = h2.wrapping_add(h1);
    let h1 = final_mix(h1);
    let h2 = final_mix(h2);
    let h1 = h1.wrapping_add(h2);
    let h2 = h2.wrapping_add(h1);
    h1 as u128 * 0x1_0000_0000_0000_0000 + h2 as u128
}

/// A hash of 128 bits. It takes no memory.
pub trait Hash128 {
    // What it gives for a list of bytes.
    ghost hash_of: { List ℕ → ℕ };

    fn hash(bytes: &[u8]) -> u128
        ensures { result ≡ hash_of bytes.now };

    /// A law: a hash has 128 bits.
    ghost bounded: { (bytes : List ℕ) → hash_of bytes < 2 ^ 128 };
}

/// MurmurHash3 for 64-bit machines, with the seed 0.
pub struct Murmur3;

impl Hash128 for Murmur3 {
    ghost hash_of = { murmur3_of };

    ghost bounded = { murmur3_below };

    fn hash(bytes: &[u8]) -> u128 {
        let (h1, h2) = mix_blocks(bytes);
        let (h1, h2) = mix_tail(h1, h2, &bytes[16 * (bytes.len() / 16)..]);
        finish(bytes.len() as u64, h1, h2)
    }
}

/// Gives 0 for all bytes, so that all bytes collide: for tests.
pub struct Constant;

impl Hash128 for Constant {
    ghost hash_of = { λ _. 0 };

    ghost bounded = { zero_below };

    fn hash(_bytes: &[u8]) -> u128 {
        0
    }
}
