//! The workers of a run before their first turn.
ghost use Rattle.std.specs.Prelude.{◌≡◌, ◌<◌, ◌≤◌, ◌*◌, ℕ, length, map, IfOk};
ghost use Rattle.std.specs.List.{All};
ghost use Rattle.ks_words.specs.Ranges.{HasRanges};
ghost use Rattle.ks_run_workers.specs.Members.{IsEnlisted};
ghost use Rattle.ks_run_feed.specs.Wanted.{placing_of};

use crate::working::WorkerThread;
use ks_cluster::Work;
use ks_edge::Gate;
use ks_growing::Pass;
use ks_run_feed::placing_of;
use ks_shared::SharedState;
use ks_words::Settings;
use ks_worker::Worker;
use std::alloc::{AllocError, Global};

// The instance of a worker, of instances that have so many threads each.
fn instance_of(number: u8, threads: u8) -> u8
    requires some { 1 ≤ threads }
    requires below { number < 4 * threads }
    ensures { result ≤ 3 }
{
    number / threads
}

// The worker of this number, with a gate that begins for it.
fn enlist_one<W: Work, G: Gate>(
    alloc: Global,
    settings: &Settings,
    number: u8,
    mut gate: G,
    pass: Pass<SharedState<W>>,
) -> WorkerThread<W, G>
    requires some { 1 ≤ settings.now.threads }
    requires number { number ≤ 15 }
    requires instance { number < 4 * settings.now.threads }
    ensures pass { result.worker.state.session.client.pass ≡ pass }
    ensures enlisted { IsEnlisted result.worker.state }
    ensures placing { result.worker.placing ≡ placing_of settings.now }
    ensures cache { result.worker.state.member.cache ≡ settings.now.cache }
{
    gate.reset(number, settings.chaos, settings.interval);
    let instance = instance_of(number, settings.threads);
    let placing = placing_of(settings);
    let cache = settings.cache;
    let worker = Worker::new(alloc, number, instance, placing, gate, pass, cache);
    WorkerThread {
        worker,
        is_starved: false,
    }
}

/// The workers of these passes, in their order: each has the pass after its number, and a gate that begins
/// for it, with the chaos and the interval of the settings. Gates that are left are let go.
pub fn enlist<W: Work, G: Gate>(
    alloc: Global,
    settings: &Settings,
    gates: Vec<G>,
    passes: Vec<Pass<SharedState<W>>>,
) -> Result<Vec<WorkerThread<W, G>>, AllocError>
    requires some { 1 ≤ settings.now.threads }
    requires gates { length passes.items ≤ length gates.items }
    requires few { length passes.items ≤ 16 }
    requires instances { length passes.items ≤ 4 * settings.now.threads }
    ensures passes { IfOk result (λ v. map (λ m. m.worker.state.session.client.pass) v.items
        ≡ passes.items) }
    ensures enlisted { IfOk result (λ v. All (λ m. IsEnlisted m.worker.state) v.items) }
    ensures placing { IfOk result (λ v. All (λ m. m.worker.placing ≡ placing_of settings.now)
        v.items) }
    ensures cache { IfOk result (λ v. All (λ m. m.worker.state.member.cache ≡ settings.now.cache)
        v.items) }
{
    let mut members = Vec::new(alloc);
    let mut gates = gates.into_iter();
    let mut rest = passes.into_iter();
    while let Some(pass) = rest.next() {
        let Some(gate) = gates.next() else {
            unreachable!()
        };
        let number = members.len() as u8;
        members.push(enlist_one(alloc, settings, number, gate, pass))?;
    }
    Ok(members)
}
