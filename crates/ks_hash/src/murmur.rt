//! MurmurHash2, and the partition of a key.
ghost use Rattle.std.specs.Prelude.{◌≡◌, ◌≤◌, ◌<◌};
ghost use Rattle.ks_hash.specs.Murmur2.{with_block, with_one, with_two, with_three, mixed, finished, seeded, murmur2_of};
ghost use Rattle.ks_hash.specs.Partition.{part_of_key};

const MULTIPLIER: u32 = 0x5bd1_e995;

#[tactic(auto, unfolding(crate::specs::Murmur2::with_block))]
fn mix_block(h: u32, k: u32) -> u32
    ensures { result ≡ with_block h k }
{
    let k = k.wrapping_mul(MULTIPLIER);
    let k = (k ^ (k >> 24)).wrapping_mul(MULTIPLIER);
    h.wrapping_mul(MULTIPLIER) ^ k
}

#[tactic(auto, unfolding(crate::specs::Murmur2::with_one))]
fn mix_one(h: u32, a: u8) -> u32
    ensures { result ≡ with_one h a }
{
    (h ^ a as u32).wrapping_mul(MULTIPLIER)
}

#[tactic(auto, unfolding(crate::specs::Murmur2::with_two))]
fn mix_two(h: u32, a: u8, b: u8) -> u32
    ensures { result ≡ with_two h a b }
{
    mix_one(h ^ ((b as u32) << 8), a)
}

#[tactic(auto, unfolding(crate::specs::Murmur2::with_three))]
fn mix_three(h: u32, a: u8, b: u8, c: u8) -> u32
    ensures { result ≡ with_three h a b c }
{
    mix_two(h ^ ((c as u32) << 16), a, b)
}

#[tactic(auto, unfolding(crate::specs::Murmur2::finished))]
fn finish(h: u32) -> u32
    ensures { result ≡ finished h }
{
    let h = (h ^ (h >> 13)).wrapping_mul(MULTIPLIER);
    h ^ (h >> 15)
}

fn mix(h: u32, bytes: &[u8]) -> u32
    ensures { result ≡ mixed h bytes.now }
{
    let mut h = h;
    let mut rest = bytes;
    while let [a, b, c, d, more @ ..] = rest {
        h = mix_block(h, u32::from_le_bytes([*a, *b, *c, *d]));
        rest = more;
    }
    match rest {
        [a, b, c] => mix_three(h, *a, *b, *c),
        [a, b] => mix_two(h, *a, *b),
        [a] => mix_one(h, *a),
        _ => h,
    }
}

/// MurmurHash2 of the bytes, with the seed of Kafka's clients.
pub fn murmur2(bytes: &[u8]) -> u32
    ensures { result ≡ murmur2_of bytes.now }
{
    let length = (bytes.len() & 0xffff_ffff) as u32;
    finish(mix(0x9747_b28c ^ length, bytes))
}

/// The partition of a key, of `n` partitions (1 to 64): the one that Kafka's default partitioner chooses.
pub fn partition_of(key: &[u8], n: u8) -> u8
    requires low { 1 ≤ n }
    requires high { n ≤ 64 }
    ensures { result ≡ part_of_key key.now n }
{
    ((murmur2(key) & 0x7fff_ffff) % n as u32) as u8
}
