//! Reads a job from a source, in whatever pieces it comes.
ghost use Rattle.std.specs.Prelude.{◌≡◌, ◌<◌, ◌≤◌, length, vec_len, None, Err, IfOk, IfSome, OnOk, option_map, if◌then◌else◌};
ghost use Rattle.std.specs.Io.KnownBytes.{IsAtEnd};
ghost use Rattle.std.specs.Option.{option_or};
ghost use Rattle.ks_edge.specs.Causes.{Rose};
ghost use Rattle.ks_job.specs.Items.{item_views};
ghost use Rattle.ks_job.specs.Reader.{after, end_of, whole};
ghost use Rattle.ks_job_source.specs.Reading.{machine_of, answer_stop, Ends, Read, TookNoFault};
ghost use Rattle.ks_job_source.specs.Stops.{stop_of, topology_stop};

use crate::stop::{JobStop, refused};
use ks_edge::{Failed, Source};
use ks_job::{JobFault, JobItem, JobReader};
use std::alloc::{AllocError, Global};
use std::thread::Threads;

// The bytes that the source is asked for at once.
pub(crate) const PIECE: usize = 4_194_304;

/// Why a job wasn't read.
#[derive(Clone, Copy, PartialEq, Eq, Debug)]
pub enum SourceError {
    /// The source failed.
    Fault,
    /// There was no memory.
    Memory,
}

impl From<Failed> for SourceError {
    ghost use Rattle.ks_job_source.specs.declared.reading.SourceError.TheVariants.{Fault};

    ghost from_gives = { λ _ e. e ≡ Fault };

    fn from(_: Failed) -> Self {
        SourceError::Fault
    }
}

impl From<AllocError> for SourceError {
    ghost use Rattle.ks_job_source.specs.declared.reading.SourceError.TheVariants.{Memory};

    ghost from_gives = { λ _ e. e ≡ Memory };

    fn from(_: AllocError) -> Self {
        SourceError::Memory
    }
}

// Why a job stops, by the reader's answer. The topology is judged as soon as it is there, before a faulty line after it.
fn judge_answer(
    alloc: Global,
    is_first: bool,
    items: &[JobItem],
    answer: Result<(), JobFault>,
) -> Result<Option<JobStop>, AllocError>
    ensures { IfOk result (λ o. o ≡ option_or
        (if is_first then topology_stop (item_views items.now) else None) (answer_stop answer)) }
{
    if is_first {
        let Ok(found) = refused(alloc, items) else {
            drop(answer);
            return Err(AllocError);
        };
        match found {
            Some(stop) => {
                drop(answer);
                return Ok(Some(stop));
            }
            None => drop(found),
        }
    }
    match answer {
        Ok(()) => Ok(None),
        Err(fault) => Ok(Some(JobStop::BadLine {
            line: fault.line,
            kind: fault.kind,
        })),
    }
}

// The next piece of a job.
pub(crate) fn feed_piece<R: Threads + Sync>(
    rt: &R,
    alloc: Global,
    reader: &mut JobReader,
    items: &mut Vec<JobItem>,
    piece: &[u8],
) -> Result<Option<JobStop>, AllocError>
    ensures fed { OnOk result (machine_of reader.new items.new.items
        ≡ option_map (λ m. after m piece.now) (machine_of reader.old items.old.items)) }
    ensures stop { IfOk result (λ o. IfSome (machine_of reader.old items.old.items)
        (λ m. topology_stop m.items ≡ None → o ≡ stop_of (after m piece.now))) }
{
    let is_first = items.is_empty();
    let answer = reader.feed_wide(rt, piece, items)?;
    judge_answer(alloc, is_first, items, answer)
}

// The end of a job; the item of a last line without an end is pushed.
pub(crate) fn end_items(
    alloc: Global,
    reader: JobReader,
    items: &mut Vec<JobItem>,
) -> Result<Option<JobStop>, AllocError>
    ensures ended { OnOk result (IfSome reader
        (λ b. item_views items.new.items ≡ (end_of b (item_views items.old.items)).items)) }
    ensures stop { IfOk result (λ o. IfSome (machine_of reader items.old.items)
        (λ m. topology_stop m.items ≡ None → o ≡ stop_of (end_of m.reader m.items))) }
{
    let is_first = items.is_empty();
    let answer = reader.finish(items)?;
    judge_answer(alloc, is_first, items, answer)
}

// The end of a job.
fn end_job(
    alloc: Global,
    reader: JobReader,
    mut items: Vec<JobItem>,
) -> Result<Result<Vec<JobItem>, JobStop>, AllocError>
    ensures { IfOk result (λ r. IfSome (machine_of reader items.items)
        (λ m. topology_stop m.items ≡ None → Ends (end_of m.reader m.items) r)) }
{
    match end_items(alloc, reader, &mut items)? {
        Some(stop) => Ok(Err(stop)),
        None => Ok(Ok(items)),
    }
}

// The items of a job, of which these bytes are read at once.
pub(crate) fn read_by<R: Threads + Sync, S: Source>(
    rt: &R,
    alloc: Global,
    input: &mut S,
    buf: &mut [u8],
) -> Result<Result<Vec<JobItem>, JobStop>, SourceError>
    requires some { 0 < length buf.old }
    requires room { length buf.old ≤ 4194304 }
    ensures kept { OnOk result (S.faults input.new ≡ S.faults input.old) }
    ensures read { IfOk result (λ r. Read (S.left input.old) r) }
    ensures end { IfOk result (λ r. OnOk r (IsAtEnd (S.left input.new))) }
    ensures fault { result ≡ Err SourceError.Fault → Rose (S.faults input.old) (S.faults input.new)
        × TookNoFault (S.left input.old) (S.left input.new) }
{
    let mut reader = JobReader::new(alloc);
    let mut items = Vec::new(alloc);
    let mut taken: u64 = 0;
    loop {
        let count = match input.take(buf) {
            Ok(count) => count,
            Err(_) => {
                drop(reader);
                return Err(SourceError::Fault);
            }
        };
        if count == 0 {
            return Ok(end_job(alloc, reader, items)?);
        }
        let found = match feed_piece(rt, alloc, &mut reader, &mut items, &buf[..count]) {
            Ok(found) => found,
            Err(_) => {
                drop(reader);
                return Err(SourceError::Memory);
            }
        };
        match found {
            Some(stop) => {
                drop(reader);
                return Ok(Err(stop));
            }
            None => drop(found),
        }
        taken += count as u64;
    }
}

// So many zeros.
pub(crate) fn zeros(alloc: Global, count: usize) -> Result<Vec<u8>, AllocError>
    ensures { IfOk result (λ v. vec_len v ≡ count) }
{
    vec![in alloc; 0u8; count]
}
