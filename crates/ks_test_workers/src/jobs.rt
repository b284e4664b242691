//! A job that is read from a text. Want of memory ends the test.
ghost use Rattle.ks_plan.specs.Drafts.{draft_view};
ghost use Rattle.ks_job.specs.Items.{item_views};
ghost use Rattle.ks_law_inputs.specs.Records.{IsJob};
ghost use Rattle.ks_test_workers.specs.Jobs.{IsJobOf};

use ks_job::{JobItem, JobReader};
use ks_law_inputs::records_fit;
use ks_topo::Draft;
use std::alloc::Global;
use std::process::Abort;

/// The topology of a job, which may have a fault, and its records.
#[derive(Drop)]
pub struct Job {
    pub draft: Draft,
    pub records: Vec<JobItem>,
}

// All that a text has; the test ends where a line is faulty.
fn items_of<R: Abort>(rt: &R, alloc: Global, text: &str) -> Vec<JobItem>
    ensures { IsJob (item_views result.items) }
{
    records_fit();
    let mut items = Vec::new(alloc);
    let mut reader = JobReader::new(alloc);
    let Ok(fed) = reader.feed(text.as_bytes(), &mut items) else {
        rt.abort()
    };
    let Ok(ended) = reader.finish(&mut items) else {
        rt.abort()
    };
    if fed.is_err() || ended.is_err() {
        rt.abort()
    }
    drop(fed);
    drop(ended);
    items
}

/// The job that a text is: the first item is the topology, and the others are the records. The test ends where it is none.
pub fn read_text<R: Abort>(rt: &R, alloc: Global, text: &str) -> Job
    ensures { IsJobOf (draft_view result.draft) (item_views result.records.items) }
{
    let mut items = items_of(rt, alloc, text);
    if items.is_empty() {
        rt.abort()
    }
    match items.remove(0) {
        JobItem::Topology { line: _, draft } => Job {
            draft,
            records: items,
        },
        JobItem::Input { .. } => rt.abort(),
    }
}
