//! What stays of a worker. Each law is the contract of a function that does nothing.
ghost use Rattle.ks_worker_state.specs.Worker.{WorkerStays, CrashLeaves};

use ks_cluster::Work;

/// What a worker keeps is so at every later moment of its pass.
pub fn worker_stays<W: Work>()
    ensures { WorkerStays W.plan }
{}

/// A crash leaves a worker that has nothing.
pub fn crash_leaves<W: Work>()
    ensures { CrashLeaves W.plan }
{}
