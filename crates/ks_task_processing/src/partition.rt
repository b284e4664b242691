//! The partition of a key among those of a topic.
ghost use Rattle.std.specs.Prelude.{◌≡◌, option_copied};
ghost use Rattle.ks_expr.specs.Keys.{spread_part};
ghost use Rattle.ks_task_processing.specs.Steps.{part_in};

use ks_expr::spread_part;
use ks_hash::murmur2;
use ks_record::{Key, Name};

// The partition of a key, as `partition_of` of ks_hash gives it, for any number of partitions; 0 of none.
fn part_of_bytes(key: &[u8], n: u8) -> u8
    ensures { result ≡ part_in key.now n }
{
    if n == 0 {
        0
    } else {
        ((murmur2(key) & 0x7fff_ffff) % n as u32) as u8
    }
}

/// The partition of a key, of so many, by its front part before a text, where one is given, else by all of it; 0 of none. Takes no memory.
pub fn part_for(before: Option<&Name>, key: &Key, partitions: u8) -> u8
    ensures { result ≡ part_in (spread_part (option_copied before.entry) key.now) partitions }
{
    part_of_bytes(spread_part(before, key.as_str().as_bytes()), partitions)
}
