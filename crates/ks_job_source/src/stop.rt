//! Why an input is no job that can be run.
ghost use Rattle.std.specs.Prelude.{◌≡◌, IfOk};
ghost use Rattle.ks_plan.specs.Drafts.{draft_view};
ghost use Rattle.ks_job.specs.Items.{item_views};
ghost use Rattle.ks_job_source.specs.Stops.{refusal, topology_stop};

use ks_job::{JobItem, JobKind};
use ks_topo::{Draft, TopoFault, first_fault};
use std::alloc::{AllocError, Global};

/// Where and why reading a job stops.
#[derive(Drop)]
pub enum JobStop {
    /// The first line that is faulty.
    BadLine { line: u64, kind: JobKind },
    /// What is wrong with the topology of this line.
    BadTopology { line: u64, fault: TopoFault },
}

// Why a topology is refused: its first fault.
fn refuse(alloc: Global, line: u64, draft: &Draft) -> Result<Option<JobStop>, AllocError>
    ensures { IfOk result (λ o. o ≡ refusal line (draft_view draft.now)) }
{
    if let Some(fault) = first_fault(alloc, draft)? {
        return Ok(Some(JobStop::BadTopology { line, fault }));
    }
    Ok(None)
}

/// Why the topology among these items is refused, where it has come and is.
pub fn refused(alloc: Global, items: &[JobItem]) -> Result<Option<JobStop>, AllocError>
    ensures { IfOk result (λ o. o ≡ topology_stop (item_views items.now)) }
{
    match items {
        [JobItem::Topology { line, draft }, ..] => refuse(alloc, *line, draft),
        _ => Ok(None),
    }
}
