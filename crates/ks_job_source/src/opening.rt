//! Opens a job: reads it until its topology is known.
ghost use Rattle.std.specs.Prelude.{◌≡◌, ◌<◌, ◌≤◌, true, None, Some, Err, length, IfOk, OnOk, option_map};
ghost use Rattle.ks_edge.specs.Causes.{Rose};
ghost use Rattle.ks_plan.specs.Drafts.{draft_view};
ghost use Rattle.ks_job.specs.Items.{item_views};
ghost use Rattle.ks_job_source.specs.declared.rest.Standing.TheVariants.{Whole};
ghost use Rattle.ks_job_source.specs.Opening.{Opens};
ghost use Rattle.ks_job_source.specs.Reading.{TookNoFault};
ghost use Rattle.ks_job_source.specs.Splitting.{split, stand_by, Parts};

use crate::reading::{PIECE, SourceError, end_items, feed_piece, read_by, zeros};
use crate::rest::{JobRest, Standing};
use crate::stop::JobStop;
use ks_edge::Source;
use ks_job::{JobItem, JobReader};
use ks_topo::Draft;
use std::alloc::Global;
use std::thread::Threads;

/// A job whose topology was read, and is well formed.
#[derive(Drop)]
pub struct OpenJob {
    pub draft: Draft,
    /// The records that came with it.
    pub records: Vec<JobItem>,
    pub rest: JobRest,
}

// The topology of a job, and its other items.
fn split_job(items: Vec<JobItem>) -> Option<(Draft, Vec<JobItem>)>
    ensures { option_map (λ p. (draft_view p.0, item_views p.1.items)) result
        ≡ split (item_views items.items) }
{
    let mut items = items;
    if items.is_empty() {
        return None;
    }
    match items.remove(0) {
        JobItem::Topology { line: _, draft } => Some((draft, items)),
        JobItem::Input { .. } => None,
    }
}

// Where reading stands, by why it stops, if it does; a topology that is refused isn't opened.
fn stand(stop: Option<JobStop>, reader: Option<JobReader>) -> Result<Standing, JobStop>
    ensures { result ≡ stand_by stop reader }
{
    match stop {
        Some(JobStop::BadTopology { line, fault }) => {
            drop(reader);
            Err(JobStop::BadTopology { line, fault })
        }
        Some(JobStop::BadLine { line, kind }) => {
            drop(reader);
            Ok(Standing::Stopped(JobStop::BadLine { line, kind }))
        }
        None => match reader {
            Some(reader) => Ok(Standing::Reading(reader)),
            None => Ok(Standing::Whole),
        },
    }
}

// The job that has these items so far; why it stops, where they have no topology or one that is refused.
fn open_with(
    stop: Option<JobStop>,
    reader: Option<JobReader>,
    items: Vec<JobItem>,
    buf: Vec<u8>,
) -> Result<OpenJob, JobStop>
    requires { split (item_views items.items) ≡ None → stop ≡ None → ⊥ }
    ensures { Parts stop reader (item_views items.items) buf.items result }
{
    let standing = stand(stop, reader)?;
    let Some((draft, records)) = split_job(items) else {
        let Standing::Stopped(stop) = standing else {
            unreachable!()
        };
        return Err(stop);
    };
    let rest = JobRest {
        standing,
        taken: 0,
        buf,
    };
    Ok(OpenJob {
        draft,
        records,
        rest,
    })
}

// Reads until the topology is whole.
fn open_by<R: Threads + Sync, S: Source>(
    rt: &R,
    alloc: Global,
    input: &mut S,
    mut buf: Vec<u8>,
) -> Result<Result<OpenJob, JobStop>, SourceError>
    requires some { 1 ≤ length buf.items }
    requires room { length buf.items ≤ 4194304 }
    ensures kept { OnOk result (S.faults input.new ≡ S.faults input.old) }
    ensures opened { IfOk result (λ r. Opens (S.left input.old) (S.left input.new) r) }
    ensures fault { result ≡ Err SourceError.Fault → Rose (S.faults input.old) (S.faults input.new)
        × TookNoFault (S.left input.old) (S.left input.new) }
{
    let mut reader = JobReader::new(alloc);
    let mut items = Vec::new(alloc);
    let mut taken: u64 = 0;
    loop {
        let count = match input.take(&mut buf) {
            Ok(count) => count,
            Err(_) => {
                drop(reader);
                return Err(SourceError::Fault);
            }
        };
        if count == 0 {
            let stop = end_items(alloc, reader, &mut items)?;
            return Ok(open_with(stop, None, items, buf));
        }
        let stop = match feed_piece(rt, alloc, &mut reader, &mut items, &buf[..count]) {
            Ok(stop) => stop,
            Err(_) => {
                drop(reader);
                return Err(SourceError::Memory);
            }
        };
        let is_open = stop.is_some() || !items.is_empty();
        if is_open {
            return Ok(open_with(stop, Some(reader), items, buf));
        }
        drop(stop);
        taken += count as u64;
    }
}

// Reads all of it.
fn open_whole<R: Threads + Sync, S: Source>(
    rt: &R,
    alloc: Global,
    input: &mut S,
    mut buf: Vec<u8>,
) -> Result<Result<OpenJob, JobStop>, SourceError>
    requires some { 1 ≤ length buf.items }
    requires room { length buf.items ≤ 4194304 }
    ensures kept { OnOk result (S.faults input.new ≡ S.faults input.old) }
    ensures opened { IfOk result (λ r. Opens (S.left input.old) (S.left input.new) r) }
    ensures whole { IfOk result (λ r. IfOk r (λ job. job.rest.standing ≡ Whole)) }
    ensures fault { result ≡ Err SourceError.Fault → Rose (S.faults input.old) (S.faults input.new)
        × TookNoFault (S.left input.old) (S.left input.new) }
{
    match read_by(rt, alloc, input, &mut buf)? {
        Ok(items) => Ok(open_with(None, None, items, buf)),
        Err(stop) => Ok(Err(stop)),
    }
}

/// Reads a job until its topology is known, or all of it where that is wanted, and opens it; or tells why it is none. The records that came
/// with the topology come with it, and so does what it stops at behind them.
pub fn open_job<R: Threads + Sync, S: Source>(
    rt: &R,
    alloc: Global,
    input: &mut S,
    is_whole: bool,
) -> Result<Result<OpenJob, JobStop>, SourceError>
    ensures kept { OnOk result (S.faults input.new ≡ S.faults input.old) }
    ensures opened { IfOk result (λ r. Opens (S.left input.old) (S.left input.new) r) }
    ensures whole { is_whole ≡ true → IfOk result (λ r. IfOk r (λ job. job.rest.standing ≡ Whole)) }
    ensures fault { result ≡ Err SourceError.Fault → Rose (S.faults input.old) (S.faults input.new)
        × TookNoFault (S.left input.old) (S.left input.new) }
{
    let buf = zeros(alloc, PIECE)?;
    if is_whole {
        open_whole(rt, alloc, input, buf)
    } else {
        open_by(rt, alloc, input, buf)
    }
}
