//! How many records of its epoch a worker has put into each partition.
ghost use Rattle.std.specs.Prelude.{◌≡◌, IfOk};
ghost use Rattle.ks_commit.specs.Alone.{number_in};
ghost use Rattle.ks_commit.specs.Numbers.{renumber};

use ks_record::PartId;
use std::alloc::{AllocError, Global};

/// The number of a partition; 0 where none stands.
pub fn number_at(numbers: &[(PartId, u64)], part: PartId) -> u64
    ensures { result ≡ number_in part numbers.now }
{
    for pair in numbers {
        if part.is(pair.0) {
            return pair.1;
        }
    }
    0
}

/// The numbers, with another one for this partition.
pub fn with_next_number(
    alloc: Global,
    numbers: &[(PartId, u64)],
    part: PartId,
    number: u64,
) -> Result<Vec<(PartId, u64)>, AllocError>
    ensures { IfOk result (λ made. made.items ≡ renumber part number numbers.now) }
{
    let mut made = Vec::with_capacity(alloc, numbers.len().saturating_add(1))?;
    made.push((part, number))?;
    for pair in numbers {
        if !part.is(pair.0) {
            made.push(*pair)?;
        }
    }
    Ok(made)
}
