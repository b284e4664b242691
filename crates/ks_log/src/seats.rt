//! Where each partition stands, in a table by the partitions' numbers.
ghost use Rattle.std.specs.Prelude.{◌≡◌, ◌<◌, ◌+◌, ◌^◌, ℕ, if◌then◌else◌, length, get_or, OnOk};
ghost use Rattle.ks_record.specs.declared.record.PartId.{PartId as Part};
ghost use Rattle.ks_record.specs.Parts.{same_part};
ghost use Rattle.ks_log.specs.Places.{part_number};

use ks_record::PartId;
use std::alloc::AllocError;

/// The number of a partition among all that there may be.
fn part_number(part: PartId) -> usize
    ensures { result ≡ part_number part }
{
    part.topic as usize * 256 + part.part as usize
}

/// What the table tells of a partition: one past its place, or 0.
pub fn seat_of(seats: &[usize], part: PartId) -> usize
    ensures { result ≡ get_or seats.now (part_number part) 0 }
{
    match seats.get(part_number(part)) {
        Some(seat) => *seat,
        None => 0,
    }
}

/// Makes the table long enough for a partition. What it tells stays.
pub fn widen(seats: &mut Vec<usize>, part: PartId) -> Result<(), AllocError>
    ensures long { OnOk result (part_number part < length seats.new.items) }
    ensures same { (i : ℕ) → get_or seats.new.items i 0 ≡ get_or seats.old.items i 0 }
{
    let number = part_number(part);
    if number >= seats.len() {
        seats.resize(number + 1, 0)?;
    }
    Ok(())
}

/// The table tells of a partition that it stands at this place.
pub fn put_seat(seats: &mut Vec<usize>, part: PartId, at: usize)
    requires long { part_number part < length seats.old.items }
    requires place { at < 2 ^ 48 }
    ensures long { length seats.new.items ≡ length seats.old.items }
    ensures seats { (p : Part) → p.part < 256 → get_or seats.new.items (part_number p) 0
        ≡ (if same_part p part then at + 1 else get_or seats.old.items (part_number p) 0) }
{
    seats[part_number(part)] = at + 1;
}
