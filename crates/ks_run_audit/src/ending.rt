//! What an output comes to at its end.
ghost use Rattle.std.specs.Prelude.{◌≡◌, ◌≢◌, ◌++◌, ℕ, List, [], ◌∷◌, true, None, IfOk, IfSome, map};
ghost use Rattle.ks_plan.specs.Layout.{parts_of_topic, topics_of};
ghost use Rattle.ks_topo.specs.Topologies.{draft_of, plan_in};
ghost use Rattle.ks_cluster.specs.View.{setup_of, state_of};
ghost use Rattle.ks_query.specs.Printed.{tables_text};
ghost use Rattle.ks_def_tasks.specs.Rules.{rules_of};
ghost use Rattle.ks_law_topology.specs.Work.{FitsRules};
ghost use Rattle.ks_settle_report.specs.Report.{IsOf};
ghost use Rattle.ks_job_source.specs.Opened.{IsReady};
ghost use Rattle.ks_run_audit.specs.Outputs.{IsSound, place_in, text_of};
ghost use Rattle.ks_audit_verdict.specs.Audited.{IsAudited};
ghost use Rattle.ks_audit_verdict.specs.Faults.{ShowsFault};
ghost use Rattle.ks_run_audit.specs.Ending.{HasEndFault, IsFirstWrong, IsReportFault, ShowsTables};

use crate::output::OutputAudit;
use ks_audit_verdict::OutputFault;
use ks_cluster::{Cluster, Work};
use ks_query::{Table, printed};
use ks_record::Blob;
use ks_settle::tables;
use ks_settle_report::{Report, report};
use ks_task::{TaskWork, topology_fits};
use ks_task_processing::Processing;
use ks_topo::{Topology, share_topology};
use std::alloc::{AllocError, Global};
use std::slice;
use std::thread::Threads;

// What stands behind a text.
fn strip_text<'l>(lines: &'l [u8], text: &[u8]) -> Option<&'l [u8]>
    ensures some { IfSome result (λ more. lines.now ≡ text.now ++ more.now) }
    ensures none { result ≡ None → (more : List ℕ) → lines.now ≡ text.now ++ more → ⊥ }
{
    lines.strip_prefix(text)
}

// Lines that stand behind the last table's belong to it.
fn unless_last<'l>(others: &[Table], more: &'l [u8]) -> Option<&'l [u8]>
    ensures some { IfSome result (λ rest. (rest.now ≡ more.now)
        × (others.now ≡ [] → more.now ≡ [])) }
    ensures none { result ≡ None → (others.now ≡ []) × (more.now ≢ []) }
{
    if others.is_empty() && !more.is_empty() {
        None
    } else {
        Some(more)
    }
}

// The lines behind those of a table, where they begin with these: those of the other tables.
fn lines_behind<'l>(
    alloc: Global,
    table: &Table,
    others: &[Table],
    lines: &'l [u8],
) -> Result<Option<&'l [u8]>, AllocError>
    ensures some { IfOk result (λ o. IfSome o (λ more.
        (lines.now ≡ tables_text (table.now ∷ []) ++ more.now)
        × (others.now ≡ [] → more.now ≡ []))) }
    ensures none { IfOk result (λ o. o ≡ None → (more : List ℕ)
        → lines.now ≡ tables_text (table.now ∷ []) ++ more
        → (others.now ≡ [] → more ≡ []) → ⊥) }
{
    let text = printed(alloc, slice::from_ref(table))?;
    match strip_text(lines, text.as_slice()) {
        Some(more) => Ok(unless_last(others, more)),
        None => Ok(None),
    }
}

// The first of some tables whose lines aren't these.
fn first_wrong(alloc: Global, tables: &[Table], lines: &[u8]) -> Result<Option<Blob>, AllocError>
    requires { tables.now ≡ [] → lines.now ≡ [] }
    ensures right { IfOk result (λ o. o ≡ None → lines.now ≡ tables_text tables.now) }
    ensures wrong { IfOk result (λ o. IfSome o (IsFirstWrong tables.now lines.now)) }
{
    let mut left = lines;
    let mut rest = tables;
    while let [table, others @ ..] = rest {
        let Some(more) = lines_behind(alloc, table, others, left)? else {
            return Ok(Some(Blob::from_slice(alloc, table.name.as_str().as_bytes())?));
        };
        left = more;
        rest = others;
    }
    Ok(None)
}

// What a cluster at rest shows, but its tables.
fn fault_of_report(report: &Report) -> Option<OutputFault>
    ensures settled { result ≡ None → report.now.settled ≡ true }
    ensures alone { result ≡ None → report.now.collision ≡ None }
    ensures in_time { result ≡ None → report.now.late ≡ 0 }
    ensures fault { IfSome result (IsReportFault report.now) }
{
    if !report.settled {
        return Some(OutputFault::NotSettled {
            lags: report.lags.len(),
            pending: report.pending,
        });
    }
    if report.collision.is_some() {
        return Some(OutputFault::Collision);
    }
    if report.late != 0 {
        return Some(OutputFault::Late { late: report.late });
    }
    None
}

// What a cluster shows, beside these lines of its tables.
fn judge_cluster<H: Processing + Sync, R: Threads + Sync, W: Work + Sync>(
    rt: &R,
    alloc: Global,
    topology: &Topology,
    cluster: &Cluster<W>,
    lines: &[u8],
) -> Result<Option<OutputFault>, AllocError>
    requires of { IsOf topology.now (setup_of W.plan cluster.now) }
    requires counts { cluster.now.counts ≡ map (parts_of_topic (plan_in topology.now))
        (topics_of (plan_in topology.now)) }
    requires lines { (draft_of topology.now).print ≡ [] → lines.now ≡ [] }
    ensures right { IfOk result (λ o. o ≡ None → ShowsTables (rules_of H.hash_of)
        (draft_of topology.now) (setup_of W.plan cluster.now) (state_of W.plan cluster.now)
        lines.now) }
    ensures wrong { IfOk result (λ o. IfSome o (ShowsFault (rules_of H.hash_of)
        (draft_of topology.now) (setup_of W.plan cluster.now) (state_of W.plan cluster.now)
        lines.now)) }
{
    let report = report::<H, R, W>(rt, alloc, cluster, topology)?;
    let shown = fault_of_report(&report);
    drop(report);
    if let Some(fault) = shown {
        return Ok(Some(fault));
    }
    let tables = tables(rt, alloc, topology, cluster)?;
    let wrong = first_wrong(alloc, tables.as_slice(), lines);
    drop(tables);
    match wrong? {
        Some(name) => Ok(Some(OutputFault::WrongTable { name })),
        None => Ok(None),
    }
}

// Hashes have 128 bits, as a fact for what follows; does nothing.
fn hashes_fit<H: Processing>()
    ensures { FitsRules (rules_of H.hash_of) }
{}

/// The fault that shows at the end of the input, if there is one. Want of memory is the one error.
pub(crate) fn judge_end<'a, H: Processing + Send + Sync, R: Threads + Sync>(
    rt: &R,
    alloc: Global,
    topology: &'a Topology,
    output: OutputAudit<'a, H>,
) -> Result<Option<OutputFault>, AllocError>
    requires ready { IsReady (draft_of topology.now) }
    requires sound { IsSound H.hash_of output }
    requires same { output.topology.now ≡ topology.now }
    ensures right { IfOk result (λ o. o ≡ None → IsAudited (rules_of H.hash_of)
        (draft_of topology.now) (text_of output.entry)) }
    ensures wrong { IfOk result (λ o. IfSome o (HasEndFault (rules_of H.hash_of)
        (draft_of topology.now) (place_in output.entry) (text_of output.entry))) }
{
    share_topology();
    // Its names and constants can be written: the law on settled journals asks for it.
    topology_fits(topology);
    hashes_fit::<H>();
    let Some((audit, lines)) = output.finish() else {
        return Ok(Some(OutputFault::NotJournal));
    };
    let cluster = audit.finish();
    // The journal is a history.
    cluster.is_history();
    let fault = judge_cluster::<H, R, TaskWork<H>>(rt, alloc, topology, &cluster, lines.as_slice());
    drop(cluster);
    drop(lines);
    fault
}
