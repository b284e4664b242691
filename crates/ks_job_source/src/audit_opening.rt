//! Reads the topology line of an audit's input.
ghost use Rattle.std.specs.Prelude.{◌≡◌, ◌++◌, ◌<◌, ◌≤◌, ℕ, List, None, Some, Err, Ok, IfOk, IfErr, IfSome, length, option_map, true, false, OnOk, ◌+◌};
ghost use Rattle.ks_plan.specs.Drafts.{draft_view};
ghost use Rattle.ks_plan.specs.Faults.{fault_of};
ghost use Rattle.ks_topo.specs.Topologies.{draft_of};
ghost use Rattle.ks_edge.specs.Causes.{Rose};
ghost use Rattle.ks_job_source.specs.declared.reading.SourceError.TheVariants.{Fault as SourceFault};
ghost use Rattle.ks_job.specs.Items.{item_views};
ghost use Rattle.ks_job_source.specs.declared.stop.JobStop.TheVariants.{BadLine};
ghost use Rattle.ks_job_source.specs.Stops.{refusal};
ghost use Rattle.ks_job_source.specs.TopologyLines.{LacksEnd, StopsAtEnd};
ghost use Rattle.ks_job_source.specs.Cutting.{IsLine};
ghost use Rattle.ks_job_source.specs.Opened.{HasBegun, HasRead, HasReadOut, HasStopped, IsReady};
ghost use Rattle.ks_job_source.specs.AuditOpening.{IsBefore, FoundIn, LineFinds, EndFinds, PieceFinds, BuildsLine, IsWith, or_fault};

use crate::cutting::split_line;
use crate::{JobStop, SourceError};
use ks_edge::Source;
use ks_job::{JobFault, JobItem, JobReader};
use ks_topo::{Draft, Topology};
use std::alloc::{AllocError, Global};

/// A topology, the number of its line, how many bytes were taken up to that line's end, and those that were taken beside them.
#[derive(Drop)]
pub struct OpenAudit {
    pub topology: Topology,
    pub line: u64,
    /// At most 2^26 + 2^16 bytes. Where the line has no end, this bound is all that is said of it.
    pub taken: u64,
    /// What stands behind the line's end.
    pub rest: Vec<u8>,
    /// Whether the line has its end.
    pub has_end: bool,
}

// A topology with the number of its line, and what stands behind that in a piece.
#[derive(Drop)]
pub(crate) struct TopologyLine<'p> {
    pub line: u64,
    pub topology: Topology,
    pub more: &'p [u8],
}

fn bad_line(fault: JobFault) -> JobStop
    ensures { result ≡ BadLine fault.line fault.kind }
{
    JobStop::BadLine {
        line: fault.line,
        kind: fault.kind,
    }
}

// The topology of a draft that was read.
fn build(
    alloc: Global,
    line: u64,
    draft: Draft,
) -> Result<Result<(u64, Topology), JobStop>, AllocError>
    ensures { IfOk result (λ r. BuildsLine line (draft_view draft) r) }
{
    match Topology::build(alloc, draft)? {
        Ok(topology) => Ok(Ok((line, topology))),
        Err(fault) => Ok(Err(JobStop::BadTopology { line, fault })),
    }
}

// The topology that stands last among some items, and the number of its line.
fn topology_in(
    alloc: Global,
    mut items: Vec<JobItem>,
) -> Result<Option<Result<(u64, Topology), JobStop>>, AllocError>
    ensures { IfOk result (λ o. FoundIn (item_views items.items) o) }
{
    match items.pop() {
        Some(JobItem::Topology { line, draft }) => Ok(Some(build(alloc, line, draft)?)),
        Some(JobItem::Input { .. }) => Ok(None),
        None => Ok(None),
    }
}

// The topology that was found, or else the fault of a line.
fn or_fault(
    found: Option<Result<(u64, Topology), JobStop>>,
    answer: Result<(), JobFault>,
) -> Option<Result<(u64, Topology), JobStop>>
    ensures { result ≡ or_fault found answer }
{
    match found {
        Some(found) => {
            drop(answer);
            Some(found)
        }
        None => match answer {
            Ok(()) => None,
            Err(fault) => Some(Err(bad_line(fault))),
        },
    }
}

// Feeds a line, or the front of one.
fn feed_line(
    alloc: Global,
    reader: &mut JobReader,
    line: &[u8],
) -> Result<Option<Result<(u64, Topology), JobStop>>, AllocError>
    requires line { IsLine line.now }
    ensures { IfOk result (λ o. (got : List ℕ) → IsBefore got reader.old
        → LineFinds (got ++ line.now) reader.new o) }
{
    let mut items = Vec::new(alloc);
    let answer = reader.feed(line, &mut items)?;
    let Ok(found) = topology_in(alloc, items) else {
        drop(answer);
        return Err(AllocError);
    };
    Ok(or_fault(found, answer))
}

// What was found, with what stands behind it.
fn with_more<'p>(
    found: Option<Result<(u64, Topology), JobStop>>,
    more: &'p [u8],
) -> Option<Result<TopologyLine<'p>, JobStop>>
    ensures { IsWith more.now found result }
{
    match found {
        Some(Ok((line, topology))) => Some(Ok(TopologyLine {
            line,
            topology,
            more,
        })),
        Some(Err(stop)) => Some(Err(stop)),
        None => None,
    }
}

// Feeds a piece, line by line, until the topology is there; what stands behind its line comes back with it.
fn feed_lines<'p>(
    alloc: Global,
    reader: &mut JobReader,
    piece: &'p [u8],
) -> Result<Option<Result<TopologyLine<'p>, JobStop>>, AllocError>
    ensures { IfOk result (λ o. (got : List ℕ) → IsBefore got reader.old
        → PieceFinds got piece.now reader.new o) }
{
    let mut rest = piece;
    while let Some((front, more)) = split_line(rest) {
        let found = feed_line(alloc, reader, front)?;
        if found.is_some() {
            return Ok(with_more(found, more));
        }
        drop(found);
        rest = more;
    }
    let found = feed_line(alloc, reader, rest)?;
    Ok(with_more(found, &[]))
}

// The input ended before a line of its own ended.
fn end_reading(
    alloc: Global,
    reader: JobReader,
    taken: u64,
) -> Result<Result<OpenAudit, JobStop>, AllocError>
    requires { (got : List ℕ) × IsBefore got reader × (taken ≡ length got) }
    ensures ready { IfOk result (λ r. IfOk r (λ o. IsReady (draft_of o.topology))) }
    ensures within { IfOk result (λ r. IfOk r (λ o. o.taken < 67174401)) }
    ensures unended { IfOk result (λ r. IfOk r (λ o. o.has_end ≡ false)) }
    ensures lacks { IfOk result (λ r. IfOk r (λ o. (got : List ℕ) → IsBefore got reader
        → LacksEnd got o.line)) }
    ensures stops { IfOk result (λ r. IfErr r (λ stop. (got : List ℕ) → IsBefore got reader
        → StopsAtEnd got stop)) }
{
    let mut items = Vec::new(alloc);
    let answer = reader.finish(&mut items)?;
    let Ok(found) = topology_in(alloc, items) else {
        drop(answer);
        return Err(AllocError);
    };
    match or_fault(found, answer) {
        Some(Ok((line, topology))) => Ok(Ok(OpenAudit {
            topology,
            line,
            taken,
            rest: Vec::new(alloc),
            has_end: false,
        })),
        Some(Err(stop)) => Ok(Err(stop)),
        // A reader that comes to its end without a fault has had a topology.
        None => unreachable!(),
    }
}

// The topology line was found in a piece, of which these bytes stand behind it, when so many were taken with the piece.
fn open_with(alloc: Global, found: TopologyLine<'_>, taken: u64) -> Result<OpenAudit, AllocError>
    ensures topology { IfOk result (λ o. o.topology ≡ found.entry.topology) }
    ensures taken { length found.entry.more.now ≤ taken
        → IfOk result (λ o. o.taken + length found.entry.more.now ≡ taken) }
    ensures rest { IfOk result (λ o. o.rest.items ≡ found.entry.more.now) }
    ensures line { IfOk result (λ o. o.line ≡ found.entry.line) }
    ensures ended { IfOk result (λ o. o.has_end ≡ true) }
{
    let TopologyLine {
        line,
        topology,
        more,
    } = found;
    let Ok(rest) = Vec::from_slice(alloc, more) else {
        drop(topology);
        return Err(AllocError);
    };
    Ok(OpenAudit {
        topology,
        line,
        taken: taken.saturating_sub(more.len() as u64),
        rest,
        has_end: true,
    })
}

/// Reads until the topology line is whole, and opens the audit; or tells why there is none. A fault that rose in the source is told only
/// where nothing was read before it that the audit stops at.
pub fn open_audit<S: Source>(
    alloc: Global,
    input: &mut S,
    buf: &mut [u8],
) -> Result<Result<OpenAudit, JobStop>, SourceError>
    requires some { 0 < length buf.old }
    requires room { length buf.old ≤ 4194304 }
    ensures ready { IfOk result (λ r. IfOk r (λ o. IsReady (draft_of o.topology))) }
    ensures within { IfOk result (λ r. IfOk r (λ o. o.taken < 67174401)) }
    ensures read { IfOk result (λ r. IfOk r (λ o. o.has_end ≡ true → HasRead (S.left input.old)
        (S.left input.new) (draft_of o.topology) o.rest.items o.line o.taken)) }
    ensures unended { IfOk result (λ r. IfOk r (λ o. o.has_end ≡ false
        → HasReadOut (S.left input.old) (S.left input.new) o.line)) }
    ensures stopped { IfOk result (λ r. IfErr r (HasStopped (S.left input.old)
        (S.left input.new))) }
    ensures kept { OnOk result (S.faults input.new ≡ S.faults input.old) }
    ensures fault { result ≡ Err SourceFault → Rose (S.faults input.old) (S.faults input.new) }
    ensures begun { result ≡ Err SourceFault → HasBegun (S.left input.old) (S.left input.new) }
    ensures buf { length buf.new ≡ length buf.old }
{
    let mut reader = JobReader::new(alloc);
    let mut taken: u64 = 0;
    loop {
        let count = match input.take(buf) {
            Ok(count) => count,
            Err(_) => {
                drop(reader);
                return Err(SourceError::Fault);
            }
        };
        if count == 0 {
            return Ok(end_reading(alloc, reader, taken)?);
        }
        taken += count as u64;
        let found = match feed_lines(alloc, &mut reader, &buf[..count]) {
            Ok(found) => found,
            Err(_) => {
                drop(reader);
                return Err(SourceError::Memory);
            }
        };
        match found {
            Some(Ok(found)) => {
                drop(reader);
                return Ok(Ok(open_with(alloc, found, taken)?));
            }
            Some(Err(stop)) => {
                drop(reader);
                return Ok(Err(stop));
            }
            None => drop(found),
        }
    }
}
