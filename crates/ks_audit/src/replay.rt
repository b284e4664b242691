//! The entries of a journal, played one after another beside the cluster that they leave.
ghost use Rattle.std.specs.Prelude.{◌≡◌, ◌≤◌, ◌<◌, ◌↔◌, ◌++◌, ◌∷◌, [], ℕ, List, length, true, None, Some, IfOk, IfErr, IfSome, OnOk, get_or};
ghost use Rattle.ks_topo.specs.Topologies.{draft_of, plan_in};
ghost use Rattle.ks_topo.specs.Places.{HasPlaces};
ghost use Rattle.ks_plan.specs.Drafts.{DraftView};
ghost use Rattle.ks_history.specs.State.{Setup, IsSetup};
ghost use Rattle.ks_history.specs.History.{Meets};
ghost use Rattle.ks_history.specs.declared.journal.Entry.{Entry as EntryView};
ghost use Rattle.ks_history.specs.declared.journal.Reply.TheVariants.{Done};
ghost use Rattle.ks_cluster.specs.View.{setup_of, state_of, setup_from};
ghost use Rattle.ks_def_tasks.specs.Messages.{Rules};
ghost use Rattle.ks_def_tasks.specs.Rules.{rules_of};
ghost use Rattle.ks_audit_ledger.specs.Accounts.{blank, owner_of};
ghost use Rattle.ks_audit_ledger.specs.Ledgers.{IsLedger};
ghost use Rattle.ks_audit.specs.Audited.{IsPlaced};
ghost use Rattle.ks_audit.specs.Playing.{MayJudge, AreAudited, IsPlayed, commit_at, names_in};
ghost use Rattle.ks_audit.specs.Entries.{IsSource, IsOpenAt, IsReady, IsCommitStop, MayKeep, IsPlayedBy, IsReadyBy, MakesEntry, GoesOn, IsHeldUp, PlaysEntry, IsStopped};

use crate::commits::{judge_tasks, rest_tasks};
use crate::fault::{AuditFault, LineStop};
use crate::placing::is_input;
use ks_audit_commit::AuditedTask;
use ks_audit_entry::{Conditions, replay_entry};
use ks_audit_ledger::{Account, Open, is_open_in, note};
use ks_cluster::{Cluster, Work};
use ks_history::{Entry, Reply, Request};
use ks_task_processing::Processing;
use ks_topo::Topology;
use std::alloc::{AllocError, Global};

/// What an audit keeps of a journal so far: the cluster that its entries leave, what that was made with, the account of each producer, and
/// each task at rest.
#[derive(Drop)]
pub struct Played<W: Work> {
    pub(crate) conditions: Conditions<W>,
    pub(crate) cluster: Cluster<W>,
    pub(crate) ledger: Vec<Account>,
    pub(crate) tasks: Vec<AuditedTask>,
}

fn is_done(reply: &Reply) -> bool
    ensures { (result ≡ true) ↔ (reply.now ≡ Done) }
{
    match reply {
        Reply::Done => true,
        _ => false,
    }
}

// Whether a commit that is accepted is answered so; of other requests nothing is asked.
fn is_answered(commit: Option<u8>, reply: &Reply) -> bool
    ensures { (result ≡ true) ↔ IfSome commit (λ w. reply.now ≡ Done) }
{
    match commit {
        Some(_) => is_done(reply),
        None => true,
    }
}

// The worker of a commit that is accepted.
fn commit_of(ledger: &[Account], request: &Request) -> Option<u8>
    requires worker { IfSome (owner_of request.now) (λ w. w < length ledger.now) }
    ensures { result ≡ commit_at ledger.now request.now }
{
    match request {
        Request::Decide { w, epoch, commit } => {
            if *commit && is_open_in(ledger, *w, *epoch) {
                Some(*w)
            } else {
                None
            }
        }
        _ => None,
    }
}

// Whether a record that is produced is an input record at its place; other requests have no such condition.
fn is_placed(alloc: Global, topology: &Topology, request: &Request) -> Result<bool, AllocError>
    requires places { (topic : ℕ) → topic < length (plan_in topology.now).counts
        → HasPlaces (plan_in topology.now) topic }
    requires source { IsSource (plan_in topology.now) request.now }
    ensures { IfOk result (λ b. (hash : List ℕ → ℕ)
        → (b ≡ true) ↔ IsPlaced (rules_of hash) (plan_in topology.now) request.now) }
{
    match request {
        Request::Produce { part, rec } => is_input(alloc, topology, *part, rec),
        _ => Ok(true),
    }
}

// What an account has open.
fn open_of(ledger: &[Account], w: u8) -> &Open
    requires { IsOpenAt ledger.now (Some w) }
    ensures { (get_or ledger.now w blank).undecided ≡ Some result.now }
{
    let account = &ledger[w as usize];
    let Some(open) = &account.undecided else {
        unreachable!()
    };
    open
}

// Judges a commit that is accepted, if there is one: each task has taken what it names then.
fn judge_commit<H: Processing, W: Work>(
    alloc: Global,
    topology: &Topology,
    cluster: &Cluster<W>,
    ledger: &[Account],
    tasks: &mut Vec<AuditedTask>,
    commit: Option<u8>,
) -> Result<(), LineStop>
    requires may { MayJudge W.plan (rules_of H.hash_of) (draft_of topology.now) cluster.now }
    requires played { IsPlayed (draft_of topology.now) (setup_of W.plan cluster.now)
        cluster.now.journal ledger.now tasks.old.items }
    requires worker { IfSome commit (λ w. w ≤ 16) }
    requires there { IsOpenAt ledger.now commit }
    ensures names { OnOk result (names_in tasks.new.items ≡ cluster.now.tasks) }
    ensures ready { OnOk result (IsReady (draft_of topology.now) (setup_of W.plan cluster.now)
        cluster.now.journal commit tasks.new.items) }
    ensures stop { IfErr result (IsCommitStop (setup_of W.plan cluster.now)
        (state_of W.plan cluster.now) commit) }
{
    let Some(w) = commit else {
        return Ok(());
    };
    let open = open_of(ledger, w);
    let found = judge_tasks::<H, W>(alloc, topology, cluster, tasks, open)?;
    match found {
        Some(task) => Err(LineStop::Fault(AuditFault::NotFaithful { task })),
        None => Ok(()),
    }
}

// The tasks that have taken what a commit names are at rest behind it.
fn rest_commit(
    ledger: &[Account],
    tasks: &mut Vec<AuditedTask>,
    commit: Option<u8>,
) -> Result<(), AllocError>
    requires there { IsOpenAt ledger.now commit }
    ensures { OnOk result ((d : DraftView) (setup : Setup) (journal : List EntryView)
        (entry : EntryView)
        → MayKeep d setup journal commit entry ledger.now tasks.old.items
        → (names_in tasks.new.items ≡ setup.tasks)
        × AreAudited d setup (journal ++ entry ∷ []) tasks.new.items) }
{
    let Some(w) = commit else {
        return Ok(());
    };
    let open = open_of(ledger, w);
    rest_tasks(tasks, open)?;
    Ok(())
}

impl<W: Work> Played<W> {
    // Whether a request meets its conditions, and its record, if one is produced, is an input record at its place.
    fn allows(
        &self,
        alloc: Global,
        topology: &Topology,
        request: &Request,
    ) -> Result<bool, AllocError>
        requires same { setup_of W.plan self.now.cluster
            ≡ setup_from (W.plan self.now.conditions.work) self.now.conditions.counts.items
            self.now.conditions.tasks.items }
        requires made { IsSetup (setup_of W.plan self.now.cluster) }
        requires sources { (W.plan self.now.cluster.work).sources
            ≡ length (plan_in topology.now).counts }
        requires places { (topic : ℕ) → topic < length (plan_in topology.now).counts
            → HasPlaces (plan_in topology.now) topic }
        ensures meets { IfOk result (λ b. b ≡ true
            → Meets (setup_of W.plan self.now.cluster) (state_of W.plan self.now.cluster)
            request.now) }
        ensures at_place { IfOk result (λ b. b ≡ true → (hash : List ℕ → ℕ)
            → IsPlaced (rules_of hash) (plan_in topology.now) request.now) }
        ensures only { IfOk result (λ b. (hash : List ℕ → ℕ)
            → Meets (setup_of W.plan self.now.cluster) (state_of W.plan self.now.cluster)
            request.now → IsPlaced (rules_of hash) (plan_in topology.now) request.now
            → b ≡ true) }
    {
        if self.conditions.allow(alloc, &self.cluster, request)? {
            is_placed(alloc, topology, request)
        } else {
            Ok(false)
        }
    }

    // The entry was made on the cluster: the tasks and the accounts go on.
    fn keep(&mut self, alloc: Global, commit: Option<u8>, entry: &Entry) -> Result<(), AllocError>
        requires there { IsOpenAt self.old.ledger.items commit }
        requires count { length self.old.ledger.items ≡ 17 }
        requires worker { IfSome (owner_of entry.now.request) (λ w. w ≤ 16) }
        ensures cluster { self.new.cluster ≡ self.old.cluster }
        ensures conditions { self.new.conditions ≡ self.old.conditions }
        ensures kept { OnOk result ((d : DraftView) (setup : Setup) (journal : List EntryView)
            → MayKeep d setup journal commit entry.now self.old.ledger.items self.old.tasks.items
            → IsPlayed d setup (journal ++ entry.now ∷ []) self.new.ledger.items
            self.new.tasks.items) }
    {
        rest_commit(self.ledger.as_slice(), &mut self.tasks, commit)?;
        note(alloc, &mut self.ledger, entry)?;
        Ok(())
    }

    // Makes the request of an entry on the cluster, whose conditions hold and which is faithful if it is a commit; false where it is answered
    // otherwise. Want of memory is the one error; after it, and where it is false, nothing of this is to be used.
    fn make(&mut self, alloc: Global, commit: Option<u8>, entry: &Entry) -> Result<bool, AllocError>
        requires ready { (d : DraftView) × (rules : Rules)
            × IsReadyBy W.plan W.good rules d self.old commit entry.now }
        requires there { IsOpenAt self.old.ledger.items commit }
        ensures { IfOk result (λ told. (d : DraftView) (rules : Rules)
            → IsReadyBy W.plan W.good rules d self.old commit entry.now
            → MakesEntry W.plan W.good rules d told self.old self.new entry.now) }
    {
        let _before = self.cluster.journal();
        if !replay_entry(alloc, &mut self.cluster, entry)? {
            return Ok(false);
        }
        let _behind = self.cluster.journal();
        self.keep(alloc, commit, entry)?;
        Ok(true)
    }

    // The same, or why it isn't made.
    fn make_or_stop(
        &mut self,
        alloc: Global,
        commit: Option<u8>,
        entry: &Entry,
    ) -> Result<(), LineStop>
        requires ready { (d : DraftView) × (rules : Rules)
            × IsReadyBy W.plan W.good rules d self.old commit entry.now }
        requires there { IsOpenAt self.old.ledger.items commit }
        ensures made { OnOk result ((d : DraftView) (rules : Rules)
            → IsReadyBy W.plan W.good rules d self.old commit entry.now
            → MakesEntry W.plan W.good rules d true self.old self.new entry.now) }
        ensures stop { IfErr result (λ stop. (d : DraftView) (rules : Rules)
            → IsReadyBy W.plan W.good rules d self.old commit entry.now
            → IsHeldUp (setup_of W.plan self.old.cluster) (state_of W.plan self.old.cluster)
            entry.now stop) }
    {
        if self.make(alloc, commit, entry)? {
            Ok(())
        } else {
            Err(LineStop::Fault(AuditFault::NotLegal))
        }
    }

    // Judges an entry whose conditions hold, and makes it.
    fn go_on<H: Processing>(
        &mut self,
        alloc: Global,
        topology: &Topology,
        entry: &Entry,
    ) -> Result<(), LineStop>
        requires played { IsPlayedBy W.plan W.good (rules_of H.hash_of) (draft_of topology.now)
            self.old }
        requires meets { Meets (setup_of W.plan self.old.cluster) (state_of W.plan self.old.cluster)
            entry.now.request }
        ensures plays { OnOk result (GoesOn W.plan W.good (rules_of H.hash_of)
            (draft_of topology.now) self.old self.new entry.now) }
        ensures stop { IfErr result (IsHeldUp (setup_of W.plan self.old.cluster)
            (state_of W.plan self.old.cluster) entry.now) }
    {
        let commit = commit_of(self.ledger.as_slice(), &entry.request);
        if !is_answered(commit, &entry.reply) {
            return Err(LineStop::Fault(AuditFault::NotLegal));
        }
        let ledger = self.ledger.as_slice();
        match judge_commit::<H, W>(
            alloc,
            topology,
            &self.cluster,
            ledger,
            &mut self.tasks,
            commit,
        ) {
            Ok(()) => self.make_or_stop(alloc, commit, entry),
            Err(stop) => Err(stop),
        }
    }

    /// Plays an entry, or tells why it isn't one of a legal and faithful journal of input records at their places: its first fault, or want
    /// of memory. After either nothing of this is to be used.
    pub(crate) fn play<H: Processing>(
        &mut self,
        alloc: Global,
        topology: &Topology,
        entry: &Entry,
    ) -> Result<(), LineStop>
        requires played { IsPlayedBy W.plan W.good (rules_of H.hash_of) (draft_of topology.now)
            self.old }
        requires places { (topic : ℕ) → topic < length (plan_in topology.now).counts
            → HasPlaces (plan_in topology.now) topic }
        ensures plays { OnOk result (PlaysEntry W.plan W.good (rules_of H.hash_of)
            (draft_of topology.now) self.old self.new entry.now) }
        ensures stop { IfErr result (IsStopped (rules_of H.hash_of) (plan_in topology.now)
            (setup_of W.plan self.old.cluster) (state_of W.plan self.old.cluster) entry.now) }
    {
        if !self.allows(alloc, topology, &entry.request)? {
            return Err(LineStop::Fault(AuditFault::NotLegal));
        }
        match self.go_on::<H>(alloc, topology, entry) {
            Ok(()) => Ok(()),
            Err(stop) => Err(stop),
        }
    }
}
