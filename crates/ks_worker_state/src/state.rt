//! A worker's state.
ghost use Rattle.std.specs.Prelude.{◌≡◌, []};
ghost use Rattle.ks_worker_state.specs.Worker.{lost};

use ks_cluster::Work;
use ks_edge::Gate;
use ks_standby::Replica;
use ks_task::Task;
use ks_worker_client::{Member, Session};
use std::alloc::Global;

/// What a worker holds: what it knows of itself, its tasks and its replicas in the order of their names, and its session with the
/// cluster. Kafka Streams: a `StreamThread` with its `TaskManager`.
#[derive(Drop)]
pub struct WorkerState<W: Work, G: Gate> {
    pub member: Member,
    pub tasks: Vec<Task>,
    pub replicas: Vec<Replica>,
    pub session: Session<W, G>,
}

impl<W: Work, G: Gate> WorkerState<W, G> {
    /// Loses its tasks and replicas, its epoch, its generation and its membership, and makes no call. Takes no memory.
    pub fn crash(&mut self, alloc: Global)
        ensures member { self.new.member ≡ lost self.old.member }
        ensures tasks { self.new.tasks.items ≡ [] }
        ensures replicas { self.new.replicas.items ≡ [] }
        ensures last { self.new.session.last ≡ 0 }
        ensures numbers { self.new.session.numbers.items ≡ [] }
        ensures client { self.new.session.client ≡ self.old.session.client }
    {
        self.member.epoch = 0;
        self.member.generation = 0;
        self.member.is_member = false;
        self.tasks = Vec::new(alloc);
        self.replicas = Vec::new(alloc);
        self.session.last = 0;
        self.session.numbers = Vec::new(alloc);
    }
}
