//! What a settled cluster has come to.
ghost use Rattle.std.specs.Prelude.{◌≡◌, IfOk, map};
ghost use Rattle.ks_plan.specs.Layout.{parts_of_topic, topics_of};
ghost use Rattle.ks_topo.specs.Topologies.{draft_of, plan_in};
ghost use Rattle.ks_cluster.specs.View.{setup_of, state_of};
ghost use Rattle.ks_def_tasks.specs.Rules.{rules_of};
ghost use Rattle.ks_settle_report.specs.Report.{IsOf};
ghost use Rattle.ks_settle_report.specs.Joins.{join_pair};
ghost use Rattle.ks_run_verdict.specs.Told.{key_bytes, pair_text, told};
ghost use Rattle.ks_run_verdict.specs.Verdict.{told_as};

use crate::status::{COLLISION, LATE, SETTLED};
use ks_cluster::{Cluster, Work};
use ks_hash::Hash128;
use ks_query::Table;
use ks_record::Blob;
use ks_run_output::{print_collision, print_late, print_settled};
use ks_settle::tables;
use ks_settle_report::{JoinCollision, Report, report};
use ks_topo::Topology;
use std::alloc::{AllocError, Global};
use std::thread::Threads;

/// What a settled cluster has come to.
#[derive(Drop)]
pub enum Verdict {
    /// No two rows of a key have one hash, and nothing was late.
    Settled { tables: Vec<Table> },
    /// No two rows of a key have one hash, and so many pairs of a record and a window were late.
    Late { late: u64, tables: Vec<Table> },
    /// Two rows of a key of a join's left table have one hash.
    Collided { collision: JoinCollision },
}

impl Verdict {
    /// The status of a run that came to this.
    pub fn status(&self) -> u8
        ensures { result ≡ (told_as self.now).0 }
    {
        match self {
            Verdict::Settled { .. } => SETTLED,
            Verdict::Late { .. } => LATE,
            Verdict::Collided { .. } => COLLISION,
        }
    }
}

// The bytes of a record's key.
fn key_of(key: &Option<Blob>) -> &[u8]
    ensures { result.now ≡ key_bytes key.now }
{
    match key {
        Some(key) => key.as_slice(),
        None => &[],
    }
}

fn print_pair(alloc: Global, collision: &JoinCollision) -> Result<Vec<u8>, AllocError>
    ensures { IfOk result (λ v. v.items ≡ pair_text (join_pair collision.now)) }
{
    let records = &collision.records;
    let key = key_of(&records.key);
    print_collision(
        alloc,
        collision.node.as_str(),
        key,
        records.first,
        records.second,
    )
}

/// The text that tells it. Want of memory is the one error.
pub fn print_verdict<R: Threads + Sync>(
    rt: &R,
    alloc: Global,
    verdict: Verdict,
) -> Result<Vec<u8>, AllocError>
    ensures { IfOk result (λ v. v.items ≡ (told_as verdict).1) }
{
    match verdict {
        Verdict::Settled { tables } => print_settled(rt, alloc, tables),
        Verdict::Late { late, tables } => print_late(rt, alloc, late, tables),
        Verdict::Collided { collision } => print_pair(alloc, &collision),
    }
}

/// What a settled cluster of a topology has come to. Want of memory is the one error.
pub fn judge<H: Hash128 + Sync, R: Threads + Sync, W: Work + Sync>(
    rt: &R,
    alloc: Global,
    topology: &Topology,
    cluster: &Cluster<W>,
) -> Result<Verdict, AllocError>
    requires of { IsOf topology.now (setup_of W.plan cluster.now) }
    requires counts { cluster.now.counts ≡ map (parts_of_topic (plan_in topology.now))
        (topics_of (plan_in topology.now)) }
    ensures { IfOk result (λ v. told_as v ≡ told (rules_of H.hash_of) (draft_of topology.now)
        (state_of W.plan cluster.now)) }
{
    let Report {
        late,
        collision,
        ..
    } = report::<H, R, W>(rt, alloc, cluster, topology)?;
    if let Some(collision) = collision {
        return Ok(Verdict::Collided { collision });
    }
    let tables = tables(rt, alloc, topology, cluster)?;
    if late == 0 {
        return Ok(Verdict::Settled { tables });
    }
    Ok(Verdict::Late { late, tables })
}
