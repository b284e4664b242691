//! The text of a run that came to rest.
ghost use Rattle.std.specs.Prelude.{◌≡◌, ◌++◌, ℕ, List, None, IfOk, OnOk};
ghost use Rattle.ks_topo.specs.Topologies.{draft_of, plan_in};
ghost use Rattle.ks_cluster.specs.View.{setup_of, state_of};
ghost use Rattle.ks_def_tasks.specs.Rules.{HaveParts};
ghost use Rattle.ks_settle.specs.Restoring.{IsQuiet};
ghost use Rattle.ks_iq.specs.Asks.{ask_fault};
ghost use Rattle.ks_iq.specs.Reads.{ReadsTopology};
ghost use Rattle.ks_run_verdict.specs.Verdict.{told_as};
ghost use Rattle.ks_run_end.specs.Tails.{without_answers, MayTell, IsTailOf, AreLinesOf, IsToldBy};

use crate::tail::Tail;
use ks_cluster::{Cluster, Work};
use ks_iq::{Answer, Ask};
use ks_journal::push_journal;
use ks_run_ask::{answer_last, push_answers};
use ks_run_verdict::{COLLISION, Verdict, print_verdict};
use ks_topo::Topology;
use std::alloc::{AllocError, Global};
use std::slice;
use std::thread::Threads;

// The answers that were given, and the last one, which is asked for now: at rest no answer stands past it.
fn push_answered<W: Work>(
    alloc: Global,
    topology: &Topology,
    cluster: &Cluster<W>,
    text: &mut Vec<u8>,
    ask: &Ask,
    answers: &[Answer],
) -> Result<(), AllocError>
    requires quiet { IsQuiet W.plan cluster.now }
    requires topology { ReadsTopology (draft_of topology.now) (setup_of W.plan cluster.now) }
    requires parts { HaveParts (plan_in topology.now) }
    requires fine { ask_fault (draft_of topology.now) ask.now ≡ None }
    ensures { OnOk result ((tail : List ℕ) × (text.new.items ≡ text.old.items ++ tail)
        × AreLinesOf (draft_of topology.now) (state_of W.plan cluster.now) ask.now answers.now
        tail) }
{
    push_answers(alloc, text, answers)?;
    let last = answer_last(alloc, topology, cluster, ask, 0)?;
    push_answers(alloc, text, slice::from_ref(&last))
}

// Appends what stands behind the tables at this status: the lines of the journal, or those of the answers. Of rows that collide no
// table is shown, and so no answer.
fn push_tail<W: Work>(
    alloc: Global,
    topology: &Topology,
    cluster: &Cluster<W>,
    text: &mut Vec<u8>,
    status: u8,
    wanted: &Tail,
) -> Result<(), AllocError>
    requires quiet { IsQuiet W.plan cluster.now }
    requires topology { ReadsTopology (draft_of topology.now) (setup_of W.plan cluster.now) }
    requires parts { HaveParts (plan_in topology.now) }
    requires may { MayTell (draft_of topology.now) (state_of W.plan cluster.now) wanted.now }
    ensures { OnOk result ((tail : List ℕ) × (text.new.items ≡ text.old.items ++ tail)
        × IsTailOf (draft_of topology.now) (state_of W.plan cluster.now)
        (without_answers status wanted.now) cluster.now.journal tail) }
{
    match wanted {
        Tail::Nothing => Ok(()),
        Tail::Lines => push_journal(text, cluster.journal()),
        Tail::Answers { ask, answers } => {
            if status == COLLISION {
                return Ok(());
            }
            push_answered(alloc, topology, cluster, text, ask, answers.as_slice())
        }
        Tail::Refusal(_) => Ok(()),
    }
}

/// The text of what a cluster at rest has come to, and what is wanted behind it. Want of memory is the one error.
pub fn tell<R: Threads + Sync, W: Work>(
    rt: &R,
    alloc: Global,
    topology: &Topology,
    cluster: &Cluster<W>,
    verdict: Verdict,
    wanted: &Tail,
) -> Result<Vec<u8>, AllocError>
    requires quiet { IsQuiet W.plan cluster.now }
    requires topology { ReadsTopology (draft_of topology.now) (setup_of W.plan cluster.now) }
    requires parts { HaveParts (plan_in topology.now) }
    requires may { MayTell (draft_of topology.now) (state_of W.plan cluster.now) wanted.now }
    ensures { IfOk result (λ v. IsToldBy (draft_of topology.now) (state_of W.plan cluster.now)
        wanted.now cluster.now.journal (told_as verdict) v.items) }
{
    let status = verdict.status();
    let mut text = print_verdict(rt, alloc, verdict)?;
    push_tail(alloc, topology, cluster, &mut text, status, wanted)?;
    Ok(text)
}
