//! Reads a job on, and produces each of its records.
ghost use Rattle.std.specs.Prelude.{◌≡◌, [], IfOk};
ghost use Rattle.ks_topo.specs.Topologies.{draft_of};
ghost use Rattle.ks_job_source.specs.Opening.{IsReading};
ghost use Rattle.ks_run_feed.specs.Feeding.{MayFeed, FaultsBy, HasFed};

use crate::producing::produce_all;
use ks_cluster::Work;
use ks_edge::Source;
use ks_growing::Pass;
use ks_job::JobItem;
use ks_job_source::{JobEnd, JobRest, SourceError};
use ks_shared::{Shared, SharedState};
use ks_topo::Topology;
use std::alloc::{AllocError, Global};
use std::mem;
use std::sync::Wait;
use std::thread::Threads;

/// What the records of a job are fed from.
#[derive(Drop)]
pub struct JobInput {
    /// The records that came with the topology.
    pub records: Vec<JobItem>,
    pub rest: JobRest,
}

/// A job's records, what follows them, and the first pass, through which they are fed.
#[derive(Drop)]
pub struct JobFeed<W: Work> {
    /// The records that came with the topology.
    pub records: Vec<JobItem>,
    pub rest: JobRest,
    /// The first pass.
    pub pass: Pass<SharedState<W>>,
}

impl<W: Work> JobFeed<W> {
    /// The first pass; all else is let go.
    pub fn into_pass(self) -> Pass<SharedState<W>>
        ensures { result ≡ self.pass }
    {
        let JobFeed {
            records,
            rest,
            pass,
        } = self;
        drop(records);
        drop(rest);
        pass
    }
}

// What is left to read of the job, where it has not ended.
fn feed_rest<R: Threads + Wait + Sync, W: Work, S: Source>(
    rt: &R,
    alloc: Global,
    topology: &Topology,
    shared: &Shared<W>,
    input: &mut S,
    feeder: &mut JobFeed<W>,
) -> Result<JobEnd, AllocError>
    requires may { MayFeed W.plan shared.now.growing.id (draft_of topology.now) feeder.old }
    requires reading { IsReading feeder.old.rest.standing }
    requires none { feeder.old.records.items ≡ [] }
    ensures fed { IfOk result (λ e. HasFed (draft_of topology.now) feeder.old feeder.new
        (S.left input.old) (S.left input.new) e) }
    ensures faults { IfOk result (λ e. FaultsBy e (S.faults input.old) (S.faults input.new)) }
{
    loop {
        let records = match feeder.rest.read_on(rt, alloc, input) {
            Ok(records) => records,
            Err(SourceError::Fault) => return Ok(JobEnd::Failed),
            Err(SourceError::Memory) => return Err(AllocError),
        };
        produce_all(rt, alloc, topology, shared, records, &mut feeder.pass)?;
        if let Some(end) = feeder.rest.end() {
            return Ok(end);
        }
    }
}

/// Produces the records that came with the topology, and then reads the job on, piece by piece, and produces the records of each line as soon as it is
/// whole, until a line is faulty, the source fails or ends. Want of memory is the one error.
pub fn feed<R: Threads + Wait + Sync, W: Work, S: Source>(
    rt: &R,
    alloc: Global,
    topology: &Topology,
    shared: &Shared<W>,
    input: &mut S,
    feeder: &mut JobFeed<W>,
) -> Result<JobEnd, AllocError>
    requires { MayFeed W.plan shared.now.growing.id (draft_of topology.now) feeder.old }
    ensures fed { IfOk result (λ e. HasFed (draft_of topology.now) feeder.old feeder.new
        (S.left input.old) (S.left input.new) e) }
    ensures faults { IfOk result (λ e. FaultsBy e (S.faults input.old) (S.faults input.new)) }
{
    let records = mem::replace(&mut feeder.records, Vec::new(alloc));
    produce_all(rt, alloc, topology, shared, records, &mut feeder.pass)?;
    match feeder.rest.end() {
        Some(end) => Ok(end),
        None => feed_rest(rt, alloc, topology, shared, input, feeder),
    }
}
