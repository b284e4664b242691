//! A replica.
ghost use Rattle.std.specs.Prelude.{◌≡◌, ◌≤◌, ℕ, List, true, IfOk, OnOk, option_map};
ghost use Rattle.ks_def_runs.specs.FinMap as fin;
ghost use Rattle.ks_history.specs.declared.journal.Entry.{Entry};
ghost use Rattle.ks_history.specs.State.{Setup};
ghost use Rattle.ks_history.specs.Machine.{has_topic};
ghost use Rattle.ks_law_restore.specs.Replicas.{fresh_replica, fed_replica};
ghost use Rattle.ks_standby.specs.Replicas.{replica_view, changelogs_of, position_sum, GivesFetched, FollowsOn};

use crate::changelogs::{feed_changelogs, new_changelogs, position_in_changelog};
use ks_cache::{Changelog, find_bytes};
use ks_record::{Rec, TaskId};
use std::alloc::{AllocError, Global};

/// The stores of a task, and a position in each of its changelogs. Kafka Streams: a `StandbyTask`.
#[derive(Drop)]
pub struct Replica {
    id: TaskId,
    changelogs: Vec<Changelog>,
}

impl Replica {
    /// A replica that was fed nothing, of a task with these changelogs, whose stores begin the hashes of keys with this seed. It follows
    /// every journal (`replica_starts` of `ks_law_restore`).
    pub fn new(
        alloc: Global,
        task: TaskId,
        changelogs: &[u16],
        seed: u64,
    ) -> Result<Replica, AllocError>
        ensures view { IfOk result (λ r. replica_view r ≡ fresh_replica task) }
        ensures changelogs { IfOk result (λ r. changelogs_of r ≡ changelogs.now) }
    {
        let changelogs = new_changelogs(alloc, changelogs, seed)?;
        Ok(Replica {
            id: task,
            changelogs,
        })
    }

    /// Feeds the records, with their offsets, that a fetch of a changelog's partition gave from the position on; the position is then
    /// `next`, where the next fetch goes on. It follows afterwards every journal that it followed before and in which a fetch gives
    /// these. After want of memory the replica is to be dropped.
    pub fn feed(&mut self, topic: u16, recs: Vec<(u64, Rec)>, next: u64) -> Result<(), AllocError>
        requires { has_topic topic (changelogs_of self.old) ≡ true }
        ensures view { OnOk result (replica_view self.new
            ≡ fed_replica (replica_view self.old) topic recs.items next) }
        ensures changelogs { OnOk result (changelogs_of self.new ≡ changelogs_of self.old) }
        ensures follows { OnOk result ((setup : Setup) (journal : List Entry)
            → GivesFetched setup journal (replica_view self.old) topic recs.items next
            → FollowsOn setup journal (replica_view self.old) (replica_view self.new)) }
    {
        feed_changelogs(&mut self.changelogs, topic, recs, next)
    }

    /// The task. Takes no memory.
    pub fn id(&self) -> TaskId
        ensures { result ≡ (replica_view self.now).task }
    {
        self.id
    }

    /// The position in a changelog: the offset from which the next fetch goes on. Takes no memory.
    pub fn position(&self, topic: u16) -> u64
        ensures { result ≡ (replica_view self.now).position topic }
    {
        position_in_changelog(&self.changelogs, topic)
    }

    /// The bytes at a key of a changelog's store; none where it has no such key, or no such changelog. Takes no memory.
    pub fn value(&self, log: u16, key: &[u8]) -> Option<&[u8]>
        ensures { option_map (λ v. v.now) result
            ≡ fin.get ((replica_view self.now).stores log) key.now }
    {
        find_bytes(&self.changelogs, log, key)
    }

    /// The sum of the positions in all its changelogs, or 2^64 - 1 where that would be more: with the sum of the ends it tells the lag
    /// (KIP-441). Takes no memory.
    pub fn sum(&self) -> u64
        ensures { result ≡ position_sum self.now.changelogs.items }
    {
        let mut sum: u64 = 0;
        let mut rest = self.changelogs.as_slice();
        while let [changelog, more @ ..] = rest {
            sum = sum.saturating_add(changelog.position);
            rest = more;
        }
        sum
    }

    /// A replica of these parts, as of a task that rests.
    pub fn of_parts(id: TaskId, changelogs: Vec<Changelog>) -> Replica
        ensures id { result.id ≡ id }
        ensures changelogs { result.changelogs.items ≡ changelogs.items }
    {
        Replica { id, changelogs }
    }

    /// Its parts, of which a task can be made.
    pub fn into_parts(self) -> (TaskId, Vec<Changelog>)
        ensures id { result.0 ≡ self.id }
        ensures changelogs { result.1.items ≡ self.changelogs.items }
    {
        let Replica { id, changelogs } = self;
        (id, changelogs)
    }
}
