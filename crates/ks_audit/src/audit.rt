//! An audit: the lines of a journal, one after another.
ghost use Rattle.std.specs.Prelude.{◌≡◌, ◌<◌, [], ℕ, List, length, map, None, Some, IfOk, IfErr, IfSome, OnOk};
ghost use Rattle.ks_history.specs.declared.journal.Entry.{Entry as EntryView};
ghost use Rattle.ks_topo.specs.Topologies.{draft_of, plan_in};
ghost use Rattle.ks_topo.specs.Places.{HasPlaces};
ghost use Rattle.ks_def_tasks.specs.Rules.{HaveParts, rules_of};
ghost use Rattle.ks_history.specs.History.{at};
ghost use Rattle.ks_plan.specs.Layout.{tasks};
ghost use Rattle.ks_law_topology.specs.Work.{work_of, setup_of as topology_setup};
ghost use Rattle.ks_audit_entry.specs.Outcomes.{FindsAllGood};
ghost use Rattle.ks_audit.specs.Playing.{AreAudited, names_in};
ghost use Rattle.ks_audit.specs.Entries.{IsPlayedBy};
ghost use Rattle.ks_cluster.specs.View.{setup_of};
ghost use Rattle.ks_audit.specs.Audited.{IsLineOf};
ghost use Rattle.ks_audit.specs.Inputs.{AreInputs};
ghost use Rattle.ks_audit.specs.Audits.{IsAudit, IsFaulty, IsLineStop, PlaysLine, TakesLine, journal_of, plan_by};

use crate::fault::{AuditFault, LineStop};
use crate::replay::Played;
use ks_audit_commit::AuditedTask;
use ks_audit_entry::Conditions;
use ks_audit_ledger::new_ledger;
use ks_cluster::{Cluster, Work};
use ks_history::Entry;
use ks_journal_line::read_line;
use ks_task::TaskWork;
use ks_task_processing::Processing;
use ks_topo::{TopicInfo, Topology};
use std::alloc::{AllocError, Global};

/// An audit of a journal over a topology: what is kept of its lines so far, and the first fault.
#[derive(Drop)]
pub struct Audit<'a, H: Processing> {
    topology: &'a Topology,
    played: Played<TaskWork<'a, H>>,
    fault: Option<AuditFault>,
}

// The partition count of each topic, by number.
fn counts_of(alloc: Global, infos: &[TopicInfo]) -> Result<Vec<u8>, AllocError>
    ensures { IfOk result (λ v. v.items ≡ map (λ i. i.parts) infos.now) }
{
    let mut counts = Vec::new(alloc);
    for info in infos {
        counts.push(info.parts)?;
    }
    Ok(counts)
}

// Each task of the topology, in an empty cluster.
fn first_tasks(alloc: Global, topology: &Topology) -> Result<Vec<AuditedTask>, AllocError>
    requires parts { HaveParts (plan_in topology.now) }
    ensures names { IfOk result (λ v. names_in v.items ≡ tasks (plan_in topology.now)) }
    ensures audited { IfOk result (λ v. (hash : List ℕ → ℕ)
        → AreAudited (draft_of topology.now) (topology_setup (rules_of hash)
        (plan_in topology.now)) [] v.items) }
{
    let names = topology.tasks();
    let mut all = Vec::new(alloc);
    for i in 0..names.len() {
        all.push(AuditedTask::new(alloc, topology, names[i])?)?;
    }
    Ok(all)
}

// The entry whose line this is.
fn find_entry(alloc: Global, text: &[u8]) -> Result<Option<Entry>, AllocError>
    ensures some { IfOk result (λ o. IfSome o (λ e. IsLineOf e text.now)) }
    ensures none { IfOk result (λ o. o ≡ None → (e : EntryView) → IsLineOf e text.now → ⊥) }
{
    match read_line(alloc, text) {
        Ok(found) => Ok(found),
        Err(error) => Err(error),
    }
}

// Plays the entry of a line.
fn play_line<H: Processing, W: Work>(
    alloc: Global,
    topology: &Topology,
    played: &mut Played<W>,
    text: &[u8],
) -> Result<(), LineStop>
    requires played { IsPlayedBy W.plan W.good (rules_of H.hash_of) (draft_of topology.now)
        played.old }
    requires places { (topic : ℕ) → topic < length (plan_in topology.now).counts
        → HasPlaces (plan_in topology.now) topic }
    ensures plays { OnOk result (PlaysLine W.plan W.good (rules_of H.hash_of)
        (draft_of topology.now) played.old played.new text.now) }
    ensures stop { IfErr result (IsLineStop (rules_of H.hash_of) (plan_in topology.now)
        (at (topology_setup (rules_of H.hash_of) (plan_in topology.now)) played.old.cluster.journal)
        text.now) }
{
    let found = find_entry(alloc, text)?;
    let Some(entry) = found else {
        return Err(LineStop::Fault(AuditFault::NotJournal));
    };
    let answer = played.play::<H>(alloc, topology, &entry);
    drop(entry);
    match answer {
        Ok(()) => Ok(()),
        Err(stop) => Err(stop),
    }
}

// What is kept of the empty journal, by these works.
fn begin<H: Processing, W: Work>(
    alloc: Global,
    topology: &Topology,
    work: W,
    same: W,
) -> Result<Played<W>, AllocError>
    requires parts { HaveParts (plan_in topology.now) }
    requires plans { W.plan work ≡ work_of (rules_of H.hash_of) (plan_in topology.now) }
    requires same { W.plan same ≡ work_of (rules_of H.hash_of) (plan_in topology.now) }
    requires all_good { FindsAllGood (W.good work) }
    ensures played { IfOk result (IsPlayedBy W.plan W.good (rules_of H.hash_of)
        (draft_of topology.now)) }
    ensures empty { IfOk result (λ p. p.cluster.journal ≡ []) }
{
    // A topology is well-formed.
    let _nodes = topology.nodes();
    let infos = topology.topics();
    let all = topology.tasks();
    let known = counts_of(alloc, infos)?;
    let named = Vec::from_slice(alloc, all)?;
    let ledger = new_ledger(alloc)?;
    let tasks = first_tasks(alloc, topology)?;
    let counts = counts_of(alloc, infos)?;
    let names = Vec::from_slice(alloc, all)?;
    let cluster = Cluster::new(alloc, work, counts, names)?;
    Ok(Played {
        conditions: Conditions {
            work: same,
            counts: known,
            tasks: named,
        },
        cluster,
        ledger,
        tasks,
    })
}

impl<'a, H: Processing> Audit<'a, H> {
    /// An audit of the empty journal, where each node has a partition and each input topic 1 to 64. Want of memory is the one error.
    pub fn new(alloc: Global, topology: &'a Topology) -> Result<Audit<'a, H>, AllocError>
        requires parts { HaveParts (plan_in topology.now) }
        ensures fault { IfOk result (λ a. a.fault ≡ None) }
        ensures topology { IfOk result (λ a. a.topology ≡ topology.entry) }
        ensures empty { IfOk result (λ a. journal_of a ≡ []) }
        ensures kept { IfOk result (IsAudit H.hash_of) }
    {
        let work = TaskWork::<H>::new(topology, None);
        let same = TaskWork::<H>::new(topology, None);
        let played = begin::<H, TaskWork<H>>(alloc, topology, work, same)?;
        Ok(Audit {
            topology,
            played,
            fault: None,
        })
    }

    /// Takes a line of the journal, without its end; or tells its first fault, and that one at every line from then on. Want of memory is the
    /// one outer error; after it the audit is to be dropped.
    pub fn line(&mut self, alloc: Global, text: &[u8]) -> Result<Result<(), AuditFault>, AllocError>
        requires kept { self.old.fault ≡ None → IsAudit H.hash_of self.old }
        requires places { (topic : ℕ) → topic < length (plan_in self.old.topology.now).counts
            → HasPlaces (plan_in self.old.topology.now) topic }
        // The line is that of an entry, whose record is an input record at its place if it is produced, whose conditions hold, whose reply
        // is that of the step, and which is faithful if it is a commit; and there was no fault before.
        ensures taken { IfOk result (λ r. OnOk r (TakesLine H.hash_of self.old self.new text.now)) }
        ensures fault { IfOk result (λ r. IfErr r (IsFaulty H.hash_of self.old text.now)) }
        ensures stays { IfOk result (λ r. IfErr r (λ f. self.new.fault ≡ Some f)) }
        ensures topology { self.new.topology ≡ self.old.topology }
    {
        if let Some(fault) = self.fault {
            return Ok(Err(fault));
        }
        match play_line::<H, TaskWork<H>>(alloc, self.topology, &mut self.played, text) {
            Ok(()) => Ok(Ok(())),
            Err(LineStop::Memory) => Err(AllocError),
            Err(LineStop::Fault(fault)) => {
                self.fault = Some(fault);
                Ok(Err(fault))
            }
        }
    }

    /// The cluster that the lines leave, none of which was refused. Takes no memory.
    pub fn finish(self) -> Cluster<TaskWork<'a, H>>
        requires fault { self.fault ≡ None }
        requires kept { IsAudit H.hash_of self }
        ensures cluster { result.journal ≡ journal_of self.entry }
        ensures setup { setup_of (plan_by H.hash_of) result
            ≡ topology_setup (rules_of H.hash_of) (plan_in self.entry.topology.now) }
        // It has produced the records of a job, each at its place.
        ensures inputs { AreInputs (rules_of H.hash_of) (plan_in self.entry.topology.now)
            result.journal }
    {
        let Audit { played, .. } = self;
        let Played { cluster, .. } = played;
        cluster
    }
}
