//! A worker.
ghost use Rattle.std.specs.Prelude.{◌≡◌, ◌≤◌, IfOk, OnOk};
ghost use Rattle.ks_worker.specs.Beginning.{IsNew};
ghost use Rattle.ks_worker.specs.Left.{LeavesStandbys, PutsBehind};

use ks_assign::Placing;
use ks_cluster::Work;
use ks_edge::Gate;
use ks_growing::Pass;
use ks_shared::SharedState;
use ks_standby::Replica;
use ks_worker_acts::rest_tasks;
use ks_worker_client::{ClusterClient, Member, Session, TurnGate};
use ks_worker_state::WorkerState;
use std::alloc::{AllocError, Global};

/// A worker of a run: what it holds, and what its gate sees of it beside that. Kafka Streams: a `StreamThread`.
#[derive(Drop)]
pub struct Worker<W: Work, G: Gate> {
    pub state: WorkerState<W, G>,
    /// How the group's tasks are to be placed.
    pub placing: Placing,
    /// The number of its turn, from 1; 0 before the first. It stays at its type's greatest value.
    pub turn: u64,
    /// How many acts `Work` there were since the last one that moved something.
    pub dry: u32,
    /// How many markers waited when the group's status was told last.
    pub waiting: u32,
}

impl<W: Work, G: Gate> Worker<W, G> {
    /// The worker of this number, 0 to 15, at an instance, 0 to 3, which has done nothing yet, and places tasks so; each store of its
    /// tasks holds back at most `cache` pairs. Takes no memory.
    pub fn new(
        alloc: Global,
        number: u8,
        instance: u8,
        placing: Placing,
        gate: G,
        pass: Pass<SharedState<W>>,
        cache: u32,
    ) -> Worker<W, G>
        requires number { number ≤ 15 }
        requires instance { instance ≤ 3 }
        ensures pass { result.state.session.client.pass ≡ pass }
        ensures gate { result.state.session.client.gate
            ≡ record {
              asked = G.asked gate;
              stops = G.stops gate;
              calls = G.calls gate;
              cuts = G.cuts gate;
            } }
        ensures new { IsNew number instance result.state }
        ensures cache { result.state.member.cache ≡ cache }
        ensures placing { result.placing ≡ placing }
        ensures turn { result.turn ≡ 0 }
        ensures dry { result.dry ≡ 0 }
        ensures waiting { result.waiting ≡ 0 }
    {
        Worker {
            state: WorkerState {
                member: Member {
                    number,
                    instance,
                    epoch: 0,
                    generation: 0,
                    is_member: false,
                    cache,
                },
                tasks: Vec::new(alloc),
                replicas: Vec::new(alloc),
                session: Session {
                    client: ClusterClient {
                        pass,
                        gate: TurnGate::new(gate),
                    },
                    last: 0,
                    numbers: Vec::new(alloc),
                    ends: Vec::new(alloc),
                },
            },
            placing,
            turn: 0,
            dry: 0,
            waiting: 0,
        }
    }

    /// Its pass; its replicas, and then those that its clean tasks leave, are put behind others; all else is let go.
    pub fn into_pass(self, replicas: &mut Vec<Replica>) -> Result<Pass<SharedState<W>>, AllocError>
        ensures pass { IfOk result (λ p. p ≡ self.state.session.client.pass) }
        ensures behind { OnOk result (PutsBehind self.state replicas.old.items replicas.new.items) }
        ensures replicas { OnOk result (LeavesStandbys W.plan self.state replicas.old.items
            replicas.new.items) }
    {
        let Worker { state, .. } = self;
        let WorkerState {
            session,
            tasks,
            replicas: own,
            ..
        } = state;
        let mut left = own;
        rest_tasks(tasks, &mut left)?;
        replicas.append(&mut left)?;
        let Session { client, .. } = session;
        let ClusterClient { pass, .. } = client;
        Ok(pass)
    }
}
