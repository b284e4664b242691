//! A lock with three passes. Want of memory ends the test.
ghost use Rattle.std.specs.Prelude.{◌≡◌, [], length};
ghost use Rattle.ks_growing.specs.Passes.{Each, IsFresh};
ghost use Rattle.ks_shared.specs.Calls.{frame_of};
ghost use Rattle.ks_test_shared.specs.Ours.{IsOurs};

use ks_cluster::Cluster;
use ks_growing::Pass;
use ks_shared::{Shared, SharedState};
use ks_test_cluster::copying::{Copying, new_cluster};
use std::alloc::Global;
use std::process::Abort;

/// The lock round a cluster of the copying task, and its passes.
#[derive(Drop)]
pub struct Locked {
    pub shared: Shared<Copying>,
    pub first: Pass<SharedState<Copying>>,
    pub second: Pass<SharedState<Copying>>,
    pub third: Pass<SharedState<Copying>>,
}

// Puts a new cluster under a lock for three passes.
fn lock<R: Abort>(
    rt: &R,
    alloc: Global,
    cluster: Cluster<Copying>,
) -> (Shared<Copying>, Vec<Pass<SharedState<Copying>>>)
    requires new { cluster.journal ≡ [] }
    ensures passes { result.0.growing.passes ≡ 3 }
    ensures count { length result.1.items ≡ 3 }
    ensures fresh { Each (IsFresh result.0.growing.id cluster.journal (frame_of cluster))
        result.1.items }
{
    match Shared::new(alloc, cluster, 3) {
        Ok(made) => made,
        Err(_) => rt.abort(),
    }
}

/// A new cluster behind its lock, with three passes, numbered from 0.
pub fn new_locked<R: Abort>(rt: &R, alloc: Global) -> Locked
    ensures passes { result.shared.growing.passes ≡ 3 }
    ensures first { IsOurs result.shared.growing.id result.first × (result.first.number ≡ 0) }
    ensures second { IsOurs result.shared.growing.id result.second × (result.second.number ≡ 1) }
    ensures third { IsOurs result.shared.growing.id result.third × (result.third.number ≡ 2) }
{
    let Ok(cluster) = new_cluster(alloc) else {
        rt.abort()
    };
    let (shared, mut passes) = lock(rt, alloc, cluster);
    let first = passes.remove(0);
    let second = passes.remove(0);
    let third = passes.remove(0);
    Locked {
        shared,
        first,
        second,
        third,
    }
}

/// How many entries the cluster has, for all passes.
pub fn close<R: Abort>(rt: &R, alloc: Global, locked: Locked) -> u64
    requires passes { locked.shared.growing.passes ≡ 3 }
    requires first { IsOurs locked.shared.growing.id locked.first × (locked.first.number ≡ 0) }
    requires second { IsOurs locked.shared.growing.id locked.second × (locked.second.number ≡ 1) }
    requires third { IsOurs locked.shared.growing.id locked.third × (locked.third.number ≡ 2) }
{
    let Locked {
        shared,
        first,
        second,
        third,
    } = locked;
    let Ok(passes) = vec![in alloc; first, second, third] else {
        rt.abort()
    };
    let cluster = shared.close(passes);
    let length = cluster.journal().len() as u64;
    drop(cluster);
    length
}

/// Both numbers are the same.
pub fn expect_number<R: Abort>(rt: &R, found: u64, expected: u64) {
    assert_eq!(rt; found, expected);
}

/// Both texts are the same.
pub fn expect_text<R: Abort>(rt: &R, found: &str, expected: &str) {
    assert_eq!(rt; found, expected);
}
