//! A reader beside the workers of a cluster.
ghost use Rattle.std.specs.Prelude.{◌≡◌, ◌<◌, length, [], IfOk, OnOk};
ghost use Rattle.ks_topo.specs.Topologies.{draft_of};
ghost use Rattle.ks_shared.specs.Calls.{setup_in};
ghost use Rattle.ks_worker_client.specs.Calls.{Later};
ghost use Rattle.ks_iq.specs.Readers.{MayCallThrough, MayRead, IsReader, IsTold, NoneFell, replica_place, IsAt, AreWithOne, HasLogAt, IsFedAt};

use crate::answer::Answer;
use crate::ask::Ask;
use crate::fault::IqFault;
use crate::feeding::feed_on;
use crate::lent_store::stale;
use crate::place::find_place;
use ks_cluster::Work;
use ks_growing::Pass;
use ks_record::TaskId;
use ks_shared::{Shared, SharedState};
use ks_standby::Replica;
use ks_topo::Topology;
use ks_worker_state::changelogs_in;
use std::alloc::{AllocError, Global};
use std::sync::Wait;

/// A reader of a cluster that others work on, through a pass of its lock: it has a replica of each task that it was asked for, and feeds
/// it when it is asked (KIP-535: reads of a store that lags).
#[derive(Drop)]
pub struct Reader<W: Work> {
    pass: Pass<SharedState<W>>,
    replicas: Vec<Replica>,
}

// The place of the first replica of a task; their number where none is of it.
fn place_of(replicas: &[Replica], task: TaskId) -> usize
    ensures { result ≡ replica_place task replicas.now }
{
    for i in 0..replicas.len() {
        if replicas[i].id().is(task) {
            return i;
        }
    }
    replicas.len()
}

// The place of the first replica of a task; a new one is pushed where none is of it.
fn replica_at(
    alloc: Global,
    topology: &Topology,
    replicas: &mut Vec<Replica>,
    task: TaskId,
) -> Result<usize, AllocError>
    ensures place { IfOk result (λ at. IsAt replicas.new.items at task) }
    ensures more { OnOk result (AreWithOne (draft_of topology.now) replicas.old.items
        replicas.new.items task) }
{
    let at = place_of(replicas, task);
    if at < replicas.len() {
        return Ok(at);
    }
    let replica = Replica::new(
        alloc,
        task,
        changelogs_in(topology, task.sub),
        topology.seed(),
    )?;
    replicas.push(replica)?;
    Ok(at)
}

impl<W: Work> Reader<W> {
    /// A reader that was asked nothing yet. Takes no memory.
    pub fn new(alloc: Global, pass: Pass<SharedState<W>>) -> Reader<W>
        ensures pass { result.pass ≡ pass }
        ensures none { result.replicas.items ≡ [] }
    {
        Reader {
            pass,
            replicas: Vec::new(alloc),
        }
    }

    /// Its pass; its replicas are let go. Takes no memory.
    pub fn into_pass(self) -> Pass<SharedState<W>>
        ensures { result ≡ self.pass }
    {
        let Reader { pass, .. } = self;
        pass
    }

    // Feeds the replica at a place one of its changelogs.
    fn feed_at<R: Wait>(
        &mut self,
        rt: &R,
        alloc: Global,
        shared: &Shared<W>,
        at: usize,
        log: u16,
    ) -> Result<(), AllocError>
        requires may { MayCallThrough W.plan shared.now.growing.id self.old.pass }
        requires at { at < length self.old.replicas.items }
        requires reader { IsReader W.plan self.old.pass self.old.replicas.items }
        requires log { HasLogAt self.old.replicas.items at log }
        ensures later { Later W.plan self.old.pass self.new.pass }
        ensures made { self.new.pass.made ≡ self.old.pass.made }
        ensures fed { OnOk result (IsFedAt (setup_in W.plan self.old.pass.frame) self.old.pass.seen
            self.new.pass.seen log at self.old.replicas.items self.new.replicas.items) }
    {
        let replica = &mut self.replicas[at];
        feed_on(rt, alloc, shared, &mut self.pass, replica, log)
    }

    /// The row of a key as its replica has it, once that is fed up to the end of its changelog or as far as a fetch moves it: a read at
    /// its position in what the pass has seen then. The position is at least `at_least`, and no position of any partition falls; also
    /// where it is behind, it is at least what was stable in what the pass had seen before. It may wait for the lock.
    ///
    /// The outer error is want of memory alone; the reader then answers no more, and gives its pass back.
    pub fn ask<R: Wait>(
        &mut self,
        rt: &R,
        alloc: Global,
        topology: &Topology,
        shared: &Shared<W>,
        ask: &Ask,
        at_least: u64,
    ) -> Result<Result<Answer, IqFault>, AllocError>
        requires may { MayRead W.plan shared.now.growing.id (draft_of topology.now) self.old.pass }
        requires reader { IsReader W.plan self.old.pass self.old.replicas.items }
        ensures later { Later W.plan self.old.pass self.new.pass }
        ensures made { self.new.pass.made ≡ self.old.pass.made }
        ensures reader { OnOk result (IsReader W.plan self.new.pass self.new.replicas.items) }
        ensures rises { OnOk result (NoneFell self.old.replicas.items self.new.replicas.items) }
        ensures told { IfOk result (λ r. IsTold W.plan (draft_of topology.now) self.old.pass
            self.new.pass self.old.replicas.items self.new.replicas.items ask.now at_least r) }
    {
        let place = match find_place(topology, ask) {
            Ok(place) => place,
            Err(fault) => return Ok(Err(fault)),
        };
        let _nodes = topology.nodes();
        let at = replica_at(alloc, topology, &mut self.replicas, place.task)?;
        self.feed_at(rt, alloc, shared, at, place.log)?;
        stale(alloc, topology, &self.replicas[at], ask, at_least)
    }
}
