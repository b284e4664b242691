//! A long piece of a job, read by several threads. It is cut after a line end, and both parts are read at the same time: the second
//! from the place at which the first ends if each of its lines is a record. Where the first ends elsewhere, the second is read
//! again from there.
ghost use Rattle.std.specs.Prelude.{◌≡◌, ◌≤◌, ◌++◌, [], Ok, IfOk, IfSome, length, true};
ghost use Rattle.std.specs.Thread.{IsSend, IsSync};
ghost use Rattle.ks_job.specs.Items.{PushesFront};
ghost use Rattle.ks_job.specs.Lines.{spot};
ghost use Rattle.ks_job.specs.Reader.{Reading, after};
ghost use Rattle.ks_job.specs.Phases.{reader_of, machine};
ghost use Rattle.ks_job.specs.contracts.wide.Part as part;
ghost use Rattle.ks_job.specs.declared.wide.Part.{Part};

use crate::judge::{JobItem, MOST_BYTES};
use crate::place::Place;
use crate::places::{copy_place, copy_topics, is_same_place};
use crate::reader::{Phase, feed_phase, line_end, split_line};
use std::alloc::{AllocError, Global};
use std::thread::{Threads, join};

// A piece with fewer bytes is read by one thread.
const SHORTEST: usize = 65_536;

/// What comes of a piece: the phase after it, and its items.
#[derive(Drop)]
struct Part {
    phase: Phase,
    items: Vec<JobItem>,
}

/// A piece in two parts, the place at which the second may begin, and a reader that stands there.
#[derive(Drop)]
struct Halves<'a> {
    front: &'a [u8],
    back: &'a [u8],
    place: Place,
    start: Phase,
}

// How many lines end in these bytes.
fn count_lines(bytes: &[u8]) -> usize
    ensures { result ≤ length bytes.now }
{
    let mut count = 0;
    let mut rest = bytes;
    while let Some((_, next)) = split_line(rest) {
        count += 1;
        rest = next;
    }
    count
}

// Behind the line in which this byte stands, or at the end.
fn past_line(bytes: &[u8], from: usize) -> usize
    requires { from ≤ length bytes.now }
    ensures { result ≤ length bytes.now }
{
    let end = from + line_end(&bytes[from..]);
    if end < bytes.len() { end + 1 } else { end }
}

// The place after these bytes if each of their lines is a record; none where reading can't come there.
fn place_after(alloc: Global, place: &Place, front: &[u8]) -> Result<Option<Place>, AllocError> {
    let Some(topics) = &place.topics else {
        return Ok(None);
    };
    if front.len() as u64 > MOST_BYTES - place.start {
        return Ok(None);
    }
    let count = count_lines(front) as u64;
    Ok(Some(Place {
        line: place.line + count,
        start: place.start + front.len() as u64,
        topics: Some(copy_topics(alloc, topics)?),
        records: place.records.saturating_add(count),
    }))
}

// A reader at this place, which has begun no line.
fn begin_at(alloc: Global, place: &Place) -> Result<Phase, AllocError>
    ensures { IfOk result (λ p. reader_of p ≡ Reading (spot place.now) []) }
{
    Ok(Phase::Reading {
        place: copy_place(alloc, place)?,
        begun: Vec::new(alloc),
    })
}

// The halves of a long piece, where reading stands at the start of a line after the topology.
fn cut_piece<'a>(
    alloc: Global,
    phase: &Phase,
    piece: &'a [u8],
) -> Result<Option<Halves<'a>>, AllocError>
    ensures whole { IfOk result (λ o. IfSome o (λ h. piece.now ≡ h.front.now ++ h.back.now)) }
    ensures start { IfOk result (λ o. IfSome o
        (λ h. reader_of h.start ≡ Reading (spot h.place) [])) }
{
    let Phase::Reading { place, begun } = phase else {
        return Ok(None);
    };
    if piece.len() < SHORTEST || !begun.is_empty() {
        return Ok(None);
    }
    let (front, back) = piece.split_at(past_line(piece, piece.len() / 2));
    let Some(place) = place_after(alloc, place, front)? else {
        return Ok(None);
    };
    let start = begin_at(alloc, &place)?;
    Ok(Some(Halves {
        front,
        back,
        place,
        start,
    }))
}

fn is_at(phase: &Phase, place: &Place) -> bool
    ensures { result ≡ true → reader_of phase.now ≡ Reading (spot place.now) [] }
{
    match phase {
        Phase::Reading { place: at, begun } => begun.is_empty() && is_same_place(at, place),
        Phase::Faulty(_) => false,
    }
}

fn read_part(alloc: Global, phase: Phase, piece: &[u8]) -> Result<Part, AllocError>
    ensures { IfOk result (λ p. machine p.phase p.items.items
        ≡ after (machine phase []) piece.now) }
{
    let mut items = Vec::new(alloc);
    items.reserve(piece.len() / 64)?;
    let phase = feed_phase(alloc, phase, piece, &mut items)?;
    Ok(Part { phase, items })
}

// What comes of both parts: the second, `back`, was read from this place.
fn join_parts(
    alloc: Global,
    first: Part,
    place: &Place,
    second: Part,
    back: &[u8],
) -> Result<Part, AllocError>
    requires { machine second.phase second.items.items
        ≡ after (record { reader = Reading (spot place.now) []; items = [] }) back.now }
    ensures { IfOk result (λ p. machine p.phase p.items.items
        ≡ after (machine first.phase first.items.items) back.now) }
{
    let Part { phase, mut items } = first;
    if is_at(&phase, place) {
        drop(phase);
        let Part {
            phase,
            items: mut more,
        } = second;
        let Ok(()) = items.append(&mut more) else {
            drop(phase);
            return Err(AllocError);
        };
        return Ok(Part { phase, items });
    }
    drop(second);
    let phase = feed_phase(alloc, phase, back, &mut items)?;
    Ok(Part { phase, items })
}

// The same of what two threads answered.
fn join_read(
    alloc: Global,
    first: Result<Part, AllocError>,
    place: &Place,
    second: Result<Part, AllocError>,
    back: &[u8],
) -> Result<Part, AllocError>
    requires { IfOk second (λ p. machine p.phase p.items.items
        ≡ after (record { reader = Reading (spot place.now) []; items = [] }) back.now) }
    ensures { IfOk result (λ p. (f : Part) × (first ≡ Ok f) × (machine p.phase p.items.items
        ≡ after (machine f.phase f.items.items) back.now)) }
{
    let Ok(first) = first else {
        drop(second);
        return Err(AllocError);
    };
    let Ok(second) = second else {
        drop(first);
        return Err(AllocError);
    };
    join_parts(alloc, first, place, second, back)
}

// A part may come back from another thread, as a fact for the call that follows; does nothing.
#[tactic(auto, using(crate::proofs::Crossed::part_send))]
fn send_part()
    ensures { IsSend part.the_row }
{}

// Cuts the piece in two so many times, as long as it is long enough, and reads each part in a thread of its own.
fn read_wide<R: Threads + Sync>(
    rt: &R,
    alloc: Global,
    phase: Phase,
    piece: &[u8],
    halvings: u32,
) -> Result<Part, AllocError>
    ensures { IfOk result (λ p. machine p.phase p.items.items
        ≡ after (machine phase []) piece.now) }
{
    if halvings == 0 {
        return read_part(alloc, phase, piece);
    }
    let Some(halves) = cut_piece(alloc, &phase, piece)? else {
        return read_part(alloc, phase, piece);
    };
    let Halves {
        front,
        back,
        place,
        start,
    } = halves;
    let fewer = halvings - 1;
    send_part();
    let (second, first) = join(
        rt,
        move || -> Result<Part, AllocError>
            requires { IsSync R.row }
            ensures { IfOk result (λ p. machine p.phase p.items.items
                ≡ after (machine start []) back.entry.now) }
        { read_wide(rt, alloc, start, back, fewer) },
        move || -> Result<Part, AllocError>
            requires { IsSync R.row }
            ensures { IfOk result (λ p. machine p.phase p.items.items
                ≡ after (machine phase []) front.entry.now) }
        { read_wide(rt, alloc, phase, front, fewer) },
    );
    let part = join_read(alloc, first, &place, second, back);
    drop(place);
    part
}

/// What comes after these bytes: the line that has begun is ended first, and the rest is read by at most four threads. `Err` only
/// where memory ran out.
pub fn feed_by_threads<R: Threads + Sync>(
    rt: &R,
    alloc: Global,
    phase: Phase,
    piece: &[u8],
    items: &mut Vec<JobItem>,
) -> Result<Phase, AllocError>
    ensures fed { IfOk result (λ p. machine p items.new.items
        ≡ after (machine phase items.old.items) piece.now) }
    ensures front { PushesFront items.old.items items.new.items
        (after (machine phase items.old.items) piece.now).items }
{
    let (front, back) = piece.split_at(past_line(piece, 0));
    let begun = feed_phase(alloc, phase, front, items)?;
    let Part {
        phase,
        items: mut more,
    } = read_wide(rt, alloc, begun, back, 2)?;
    items.append(&mut more)?;
    Ok(phase)
}
