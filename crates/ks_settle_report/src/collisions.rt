//! Hash collisions in a changelog, over its partitions.
ghost use Rattle.std.specs.Prelude.{◌≡◌, ◌+◌, ◌≤◌, ℕ, IfOk, option_map};
ghost use Rattle.std.specs.Thread.{IsSync};
ghost use Rattle.ks_plan.specs.Layout.{up_to};
ghost use Rattle.ks_history.specs.State.{IsPart};
ghost use Rattle.ks_history.specs.Reads.{decided_records};
ghost use Rattle.ks_cluster.specs.View.{setup_of, state_of};
ghost use Rattle.ks_settle.specs.Rows.{part_in, parts_from};
ghost use Rattle.ks_law_settled.specs.Collision.{first_in};
ghost use Rattle.ks_settle_report.specs.Hashed.{row_hash, kind_as, pair_of};
ghost use Rattle.ks_settle_report.specs.Partitions.{first_of};

use crate::{Collision, first_collision};
use ks_cluster::{Cluster, Work};
use ks_hash::Hash128;
use ks_record::PartId;
use ks_settle::rows::StoredForm;
use std::alloc::{AllocError, Global};
use std::thread::{Threads, join};

// The first collision of a partition.
fn first_in_part<H: Hash128, W: Work>(
    alloc: Global,
    cluster: &Cluster<W>,
    shown: StoredForm,
    part: PartId,
) -> Result<Option<Collision>, AllocError>
    requires { IsPart (setup_of W.plan cluster.now) part }
    ensures { IfOk result (λ o. option_map pair_of o ≡ first_in (row_hash H.hash_of) (kind_as shown)
        (decided_records (state_of W.plan cluster.now) part)) }
{
    let recs = cluster.decided(alloc, part)?;
    first_collision::<H>(alloc, shown, recs.as_slice())
}

// The first collision of so many partitions from one on: each half is searched beside the other.
fn first_from<H: Hash128 + Sync, R: Threads + Sync, W: Work + Sync>(
    rt: &R,
    alloc: Global,
    cluster: &Cluster<W>,
    shown: StoredForm,
    topic: u16,
    from: u8,
    count: u8,
) -> Result<Option<Collision>, AllocError>
    requires last { from + count ≤ 255 }
    requires parts { (part : ℕ) → part + 1 ≤ from + count
        → IsPart (setup_of W.plan cluster.now) (part_in topic part) }
    ensures { IfOk result (λ o. option_map pair_of o ≡ first_of (row_hash H.hash_of) (kind_as shown)
        (state_of W.plan cluster.now) topic (parts_from from count)) }
{
    if count == 0 {
        return Ok(None);
    }
    if count == 1 {
        return first_in_part::<H, W>(alloc, cluster, shown, PartId { topic, part: from });
    }
    let half = count / 2;
    let (middle, rest) = (from + half, count - half);
    let (earlier, later) = join(
        rt,
        || -> Result<Option<Collision>, AllocError>
            requires { IsSync H.row × IsSync R.row × IsSync W.row × (from + half ≤ 255)
                × ((part : ℕ) → part + 1 ≤ from + half
                → IsPart (setup_of W.plan cluster.now) (part_in topic part)) }
            ensures { IfOk result (λ o. option_map pair_of o ≡ first_of (row_hash H.hash_of)
                (kind_as shown) (state_of W.plan cluster.entry.now) topic (parts_from from half)) }
        { first_from::<H, R, W>(rt, alloc, cluster, shown, topic, from, half) },
        || -> Result<Option<Collision>, AllocError>
            requires { IsSync H.row × IsSync R.row × IsSync W.row × (middle + rest ≤ 255)
                × ((part : ℕ) → part + 1 ≤ middle + rest
                → IsPart (setup_of W.plan cluster.now) (part_in topic part)) }
            ensures { IfOk result (λ o. option_map pair_of o ≡ first_of (row_hash H.hash_of)
                (kind_as shown) (state_of W.plan cluster.entry.now) topic
                (parts_from middle rest)) }
        { first_from::<H, R, W>(rt, alloc, cluster, shown, topic, middle, rest) },
    );
    Ok(earlier?.or(later?))
}

/// The first hash collision of a changelog's decided records, by partition, greater and lesser offset. Partitions are searched side by
/// side where threads can be made. `Err` only where memory ran out.
pub fn first_in_parts<H: Hash128 + Sync, R: Threads + Sync, W: Work + Sync>(
    rt: &R,
    alloc: Global,
    cluster: &Cluster<W>,
    shown: StoredForm,
    topic: u16,
    parts: u8,
) -> Result<Option<Collision>, AllocError>
    requires parts { (part : ℕ) → part + 1 ≤ parts
        → IsPart (setup_of W.plan cluster.now) (part_in topic part) }
    ensures { IfOk result (λ o. option_map pair_of o ≡ first_of (row_hash H.hash_of) (kind_as shown)
        (state_of W.plan cluster.now) topic (up_to parts)) }
{
    first_from::<H, R, W>(rt, alloc, cluster, shown, topic, 0, parts)
}
