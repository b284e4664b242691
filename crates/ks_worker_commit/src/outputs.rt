//! The partitions in which works have records.
ghost use Rattle.std.specs.Prelude.{◌≡◌, [], IfOk};
ghost use Rattle.ks_history.specs.State.{insert_part};
ghost use Rattle.ks_commit.specs.Committed.{works_of};
ghost use Rattle.ks_worker_commit.specs.Outputs.{parts_with, parts_in};

use ks_commit::Frozen;
use ks_record::{PartId, SharedRecords};
use std::alloc::{AllocError, Global};

// A rising list with one partition more.
fn with_part(alloc: Global, parts: &[PartId], p: PartId) -> Result<Vec<PartId>, AllocError>
    ensures { IfOk result (λ made. made.items ≡ insert_part p parts.now) }
{
    let mut made = Vec::new(alloc);
    for (i, q) in parts.iter().enumerate() {
        if p.is(*q) {
            made.extend_from_slice(&parts[i..])?;
            return Ok(made);
        }
        if p.is_before(*q) {
            made.push(p)?;
            made.extend_from_slice(&parts[i..])?;
            return Ok(made);
        }
        made.push(*q)?;
    }
    made.push(p)?;
    Ok(made)
}

// A rising list with the partitions of a work's outputs.
fn with_outputs(
    alloc: Global,
    parts: &[PartId],
    outputs: &[(PartId, SharedRecords)],
) -> Result<Vec<PartId>, AllocError>
    ensures { IfOk result (λ made. made.items ≡ parts_with parts.now outputs.now) }
{
    let mut made = Vec::from_slice(alloc, parts)?;
    for out in outputs {
        made = with_part(alloc, made.as_slice(), out.0)?;
    }
    Ok(made)
}

// The partitions in which works have records, rising.
pub(crate) fn output_parts(alloc: Global, works: &[Frozen]) -> Result<Vec<PartId>, AllocError>
    ensures { IfOk result (λ made. made.items ≡ parts_in [] (works_of works.now)) }
{
    let mut made = Vec::new(alloc);
    for work in works {
        made = with_outputs(alloc, made.as_slice(), work.outputs.as_slice())?;
    }
    Ok(made)
}
