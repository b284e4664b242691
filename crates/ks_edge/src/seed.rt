//! Bits that a job can't choose.
use std::random::RandomSource;

/// 64 bits that the system draws, with which the hashes of keys begin, so that a job can't hold keys that were searched for to have one
/// hash; 0 where the system draws none, after which such a job takes its time. No result depends on them. Takes no memory.
pub fn draw_seed<R: RandomSource>(rt: &R) -> u64 {
    let mut bytes = [0; 8];
    match rt.fill_bytes(&mut bytes) {
        Ok(()) => u64::from_le_bytes(bytes),
        Err(_) => 0,
    }
}
