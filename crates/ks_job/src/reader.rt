//! A job, in whatever pieces its bytes come.
ghost use Rattle.std.specs.Prelude.{◌≡◌, ◌≢◌, Some, None, OnErr, IsErr, ◌<◌, ◌≤◌, ◌++◌, ◌-◌, [], ◌∷◌, length, IfOk, IfSome, OnOk, slice_index, true, false, ℕ, List, option_map};
ghost use Rattle.std.specs.List.{flat_map};
ghost use Rattle.ks_job_record.specs.Gives.{Gives};
ghost use Rattle.ks_job.specs.ByLines.{by_lines};
ghost use Rattle.ks_job.specs.Cut.{cut_line, room, ended, kept};
ghost use Rattle.ks_job.specs.Items.{item_view, item_views, PushesFront};
ghost use Rattle.ks_job.specs.Lines.{spot};
ghost use Rattle.ks_job.specs.Reader.{is_line_end, after, closed, end_of, start, so_far};
ghost use Rattle.ks_job.specs.Phases.{reader_of, machine, Fed, TellsFault, IsFaulty};

use crate::judge::{JobItem, judge_line, too_long};
use crate::place::Place;
use crate::wide::feed_by_threads;
use ks_job_record::{JobKind, LineError};
use memchr::memchr;
use std::alloc::{AllocError, Global};
use std::marker::Model;
use std::thread::Threads;

const MOST_LINE: usize = 65_536;

/// The first faulty line, and what is wrong with it.
#[derive(Drop, Clone)]
pub struct JobFault {
    pub line: u64,
    pub kind: JobKind,
}

/// At a line, with its bytes so far; or stopped at the first faulty line.
#[derive(Drop)]
pub enum Phase {
    Reading { place: Place, begun: Vec<u8> },
    Faulty(JobFault),
}

/// Where the first line ends: at its LF, or at the end.
pub fn line_end(bytes: &[u8]) -> usize
    ensures within { result ≤ length bytes.now }
    ensures before { (k : ℕ) → k < result → is_line_end (slice_index bytes.now k) ≡ false }
    ensures at { result < length bytes.now → is_line_end (slice_index bytes.now result) ≡ true }
{
    memchr(b'\n', bytes).unwrap_or(bytes.len())
}

/// The bytes before the first line end, and those after it.
pub fn split_line(bytes: &[u8]) -> Option<(&[u8], &[u8])>
    ensures cut { option_map (λ p. (p.0.now, p.1.now)) result ≡ cut_line bytes.now }
    ensures shorter { IfSome result (λ p. length p.1.now < length bytes.now) }
{
    let end = line_end(bytes);
    if end < bytes.len() {
        Some((&bytes[..end], &bytes[end + 1..]))
    } else {
        None
    }
}

// Judges the begun line with these last bytes of it.
#[tactic(auto, unfolding(crate::specs::Cut::ended))]
fn end_line(
    alloc: Global,
    place: Place,
    begun: &mut Vec<u8>,
    front: &[u8],
) -> Result<(Place, Option<JobItem>), LineError>
    ensures line { Gives (λ x. (spot x.0, option_map item_view x.1)) result
        (ended (spot place) begun.old.items front.now) }
    ensures empty { OnOk result (begun.new.items ≡ []) }
{
    if front.len() > room_left(begun) {
        Err(LineError::Fault(too_long(alloc, place.start)?))
    } else if begun.is_empty() {
        judge_line(alloc, place, 1, front)
    } else {
        begun.extend_from_slice(front)?;
        let judged = judge_line(alloc, place, 1, begun)?;
        begun.clear();
        Ok(judged)
    }
}

// How many bytes the begun line can still take.
#[tactic(auto, unfolding(crate::specs::Cut::room))]
fn room_left(begun: &[u8]) -> usize
    ensures { result ≡ room begun.now }
{
    MOST_LINE.saturating_sub(begun.len())
}

// What comes of the bytes after the last line end.
#[tactic(auto, unfolding(crate::specs::Cut::kept))]
fn keep_rest(alloc: Global, place: Place, begun: Vec<u8>, rest: &[u8]) -> Result<Phase, AllocError>
    ensures { IfOk result (λ p. reader_of p ≡ kept (spot place) begun.items rest.now) }
{
    let mut begun = begun;
    if rest.len() <= room_left(&begun) {
        begun.extend_from_slice(rest)?;
        return Ok(Phase::Reading { place, begun });
    }
    let line = place.line;
    let kind = too_long(alloc, place.start)?;
    Ok(Phase::Faulty(JobFault { line, kind }))
}

// What comes after these bytes.
fn feed_reading(
    alloc: Global,
    place: Place,
    begun: Vec<u8>,
    piece: &[u8],
    items: &mut Vec<JobItem>,
) -> Result<Phase, AllocError>
    ensures fed { IfOk result (λ p. machine p items.new.items
        ≡ after (machine (Phase.Reading place begun) items.old.items) piece.now) }
    ensures front { PushesFront items.old.items items.new.items
        (after (machine (Phase.Reading place begun) items.old.items) piece.now).items }
{
    let mut place = place;
    let mut begun = begun;
    let mut rest = piece;
    while let Some((front, next)) = split_line(rest) {
        let line = place.line;
        match end_line(alloc, place, &mut begun, front) {
            Ok((after, item)) => {
                match item {
                    Some(item) => items.push(item)?,
                    None => {}
                }
                place = after;
            }
            Err(error) => match error {
                LineError::Fault(kind) => return Ok(Phase::Faulty(JobFault { line, kind })),
                LineError::Memory => return Err(AllocError),
            },
        }
        rest = next;
    }
    keep_rest(alloc, place, begun, rest)
}

/// What comes after these bytes. `Err` only where memory ran out.
#[tactic(auto, using(crate::proofs::Cuts::after_faulty))]
pub fn feed_phase(
    alloc: Global,
    phase: Phase,
    piece: &[u8],
    items: &mut Vec<JobItem>,
) -> Result<Phase, AllocError>
    ensures fed { IfOk result (λ p. machine p items.new.items
        ≡ after (machine phase items.old.items) piece.now) }
    ensures front { PushesFront items.old.items items.new.items
        (after (machine phase items.old.items) piece.now).items }
{
    match phase {
        Phase::Reading { place, begun } => feed_reading(alloc, place, begun, piece, items),
        Phase::Faulty(fault) => Ok(Phase::Faulty(fault)),
    }
}

fn close(alloc: Global, line: u64, place: Place) -> Phase
    ensures { reader_of result ≡ closed line (spot place) }
{
    if place.topics.is_some() {
        Phase::Reading {
            place,
            begun: Vec::new(alloc),
        }
    } else {
        Phase::Faulty(JobFault {
            line,
            kind: JobKind::NoTopology,
        })
    }
}

#[tactic(auto, using(crate::proofs::Cuts::seen_push))]
fn finish_phase(alloc: Global, phase: Phase, items: &mut Vec<JobItem>) -> Result<Phase, AllocError>
    ensures ended { IfOk result (λ p. machine p items.new.items
        ≡ end_of (reader_of phase) (item_views items.old.items)) }
    ensures front { PushesFront items.old.items items.new.items
        (end_of (reader_of phase) (item_views items.old.items)).items }
{
    match phase {
        Phase::Faulty(fault) => Ok(Phase::Faulty(fault)),
        Phase::Reading { place, begun } => {
            let line = place.line;
            if begun.is_empty() {
                return Ok(close(alloc, line, place));
            }
            match judge_line(alloc, place, 0, &begun) {
                Ok((next, item)) => {
                    match item {
                        Some(item) => items.push(item)?,
                        None => {}
                    }
                    Ok(close(alloc, line, next))
                }
                Err(error) => match error {
                    LineError::Fault(kind) => Ok(Phase::Faulty(JobFault { line, kind })),
                    LineError::Memory => Err(AllocError),
                },
            }
        }
    }
}

fn answer(phase: &Phase) -> Result<Result<(), JobFault>, AllocError>
    ensures { IfOk result (λ r. TellsFault r (reader_of phase.now)) }
{
    match phase {
        Phase::Reading { .. } => Ok(Ok(())),
        Phase::Faulty(fault) => Ok(Err(fault.clone()?)),
    }
}

/// Reads a job piece by piece; none where memory ran out.
#[derive(Drop)]
pub struct JobReader {
    alloc: Global,
    phase: Option<Phase>,
}

impl Model for JobReader {
    ghost use Rattle.std.specs.Prelude.{Option, option_map};
    ghost use Rattle.ks_job.specs.Reader.{Reader};
    ghost use Rattle.ks_job.specs.Phases.{reader_of};

    ghost Value = { Option Reader };

    ghost view = { λ r. option_map reader_of r.phase };
}

impl JobReader {
    /// A reader before the first byte of a job. Takes no memory.
    pub fn new(alloc: Global) -> JobReader
        ensures { result ≡ Some start }
    {
        let place = Place {
            line: 1,
            start: 0,
            topics: None,
            records: 0,
        };
        JobReader {
            alloc,
            phase: Some(Phase::Reading {
                place,
                begun: Vec::new(alloc),
            }),
        }
    }

    /// The end of the input: pushes the item of a last line that has no end. `Err` only where memory ran out, at this call or at an
    /// earlier one: that item was then pushed or not, and nothing else was.
    pub fn finish(self, items: &mut Vec<JobItem>) -> Result<Result<(), JobFault>, AllocError>
        ensures ended { IfOk result (λ r. IfSome self
            (λ b. TellsFault r (end_of b (item_views items.old.items)).reader
            × (item_views items.new.items ≡ (end_of b (item_views items.old.items)).items))) }
        ensures front { IfSome self (λ b. PushesFront items.old.items items.new.items
            (end_of b (item_views items.old.items)).items) }
        ensures sticky { self ≡ None → IsErr result × (items.new.items ≡ items.old.items) }
    {
        let JobReader { alloc, phase } = self;
        let Some(phase) = phase else {
            return Err(AllocError);
        };
        let last = finish_phase(alloc, phase, items)?;
        answer(&last)
    }

    // Stands at this phase, and answers by it; stays at none where there is no memory for the answer.
    fn stand_at(&mut self, next: Phase) -> Result<Result<(), JobFault>, AllocError>
        requires { self.old ≡ None }
        ensures at { OnOk result (self.new ≡ Some (reader_of next)) }
        ensures answer { IfOk result (λ r. TellsFault r (reader_of next)) }
        ensures err { OnErr result (self.new ≡ None) }
    {
        let verdict = answer(&next)?;
        self.phase = Some(next);
        Ok(verdict)
    }

    /// Takes the next piece, and pushes the items of the lines that are whole now. `Err` only where memory ran out, at this call or
    /// at an earlier one: the reader then reads no more, and of those items the first were pushed, maybe none or all. A faulty line
    /// is the inner `Err`.
    pub fn feed(
        &mut self,
        piece: &[u8],
        items: &mut Vec<JobItem>,
    ) -> Result<Result<(), JobFault>, AllocError>
        ensures fed { OnOk result (Fed self.old self.new items.old.items items.new.items
            piece.now) }
        ensures answer { IfOk result (λ r. IfSome self.new (λ s. TellsFault r s)) }
        ensures err { OnErr result (self.new ≡ None) }
        ensures front { IfSome self.old (λ r. PushesFront items.old.items items.new.items
            (after (record { reader = r; items = item_views items.old.items }) piece.now).items) }
        ensures sticky { self.old ≡ None → IsErr result × (items.new.items ≡ items.old.items) }
    {
        let Some(phase) = self.phase.take() else {
            return Err(AllocError);
        };
        let next = feed_phase(self.alloc, phase, piece, items)?;
        self.stand_at(next)
    }

    /// Takes the next piece as `feed` does, and fails as it does; a long one is read by several threads.
    pub fn feed_wide<R: Threads + Sync>(
        &mut self,
        rt: &R,
        piece: &[u8],
        items: &mut Vec<JobItem>,
    ) -> Result<Result<(), JobFault>, AllocError>
        ensures fed { OnOk result (Fed self.old self.new items.old.items items.new.items
            piece.now) }
        ensures answer { IfOk result (λ r. IfSome self.new (λ s. TellsFault r s)) }
        ensures err { OnErr result (self.new ≡ None) }
        ensures front { IfSome self.old (λ r. PushesFront items.old.items items.new.items
            (after (record { reader = r; items = item_views items.old.items }) piece.now).items) }
        ensures sticky { self.old ≡ None → IsErr result × (items.new.items ≡ items.old.items) }
    {
        let Some(phase) = self.phase.take() else {
            return Err(AllocError);
        };
        let next = feed_by_threads(rt, self.alloc, phase, piece, items)?;
        self.stand_at(next)
    }
}

/// Takes pieces one after another. A fault is no error of this call: the reader keeps it, and takes nothing that comes behind it.
/// `AllocError`: memory ran out, as every later call then answers.
pub fn feed_all(
    reader: &mut JobReader,
    pieces: &[Vec<u8>],
    items: &mut Vec<JobItem>,
) -> Result<(), AllocError>
    ensures { OnOk result (reader.old ≢ None → Fed reader.old reader.new items.old.items
        items.new.items (flat_map (λ v. v.items) pieces.now)) }
{
    let mut rest = pieces;
    while let [first, more @ ..] = rest {
        drop(reader.feed(first, items)?);
        rest = more;
    }
    Ok(())
}

/// The items of a job and its first fault are those of its lines, one after another.
#[tactic(auto, using(crate::proofs::Whole::by_lines_so_far))]
pub fn items_by_lines()
    ensures { (xs : List ℕ) → so_far xs ≡ by_lines xs }
{}

/// After 67,174,401 bytes a faulty line is whole.
#[tactic(auto, using(crate::proofs::Ends::reading_ends))]
pub fn reading_ends()
    ensures { (xs : List ℕ) → 67174401 ≤ length xs → IsFaulty (so_far xs).reader }
{}
