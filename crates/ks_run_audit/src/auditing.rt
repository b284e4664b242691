//! The audit of what a source holds.
ghost use Rattle.std.specs.Prelude.{◌≡◌, ◌+◌, ◌^◌, ◌<◌, ◌≤◌, [], true, false, Err, IfOk, IfErr, OnErr, OnOk, length, take, vec_len};
ghost use Rattle.std.specs.Io.KnownBytes.{Consumes, IsAtEnd, Keeps};
ghost use Rattle.ks_edge.specs.Causes.{HasCause, Rose};
ghost use Rattle.ks_job_source.specs.declared.reading.SourceError.TheVariants.{Fault as SourceFault};
ghost use Rattle.ks_topo.specs.Topologies.{draft_of};
ghost use Rattle.ks_def_tasks.specs.Rules.{rules_of};
ghost use Rattle.ks_audit_verdict.specs.declared.fault.OutputFault.TheVariants.{NotJournal};
ghost use Rattle.ks_audit_verdict.specs.Answers.{IsAuditAnswer, TookNothingFaulty};
ghost use Rattle.ks_audit_verdict.specs.Places.Place.{first_line};
ghost use Rattle.ks_audit_verdict.specs.Texts.{no_text, yes_text};
ghost use Rattle.ks_job_source.specs.Opened.{IsReady};
ghost use Rattle.ks_run_audit.specs.Outputs.{IsSound, place_in, text_of};
ghost use Rattle.ks_run_audit.specs.Feeding.{IsFeed, Loses, LosesFault, ReadsAll, ReadsFault, ReadsOut, draft_in};
ghost use Rattle.ks_run_audit.specs.Answering.{AnswersOutput, EndsEarly, EndsOutput};

use crate::ending::judge_end;
use crate::feeding::LineFeed;
use crate::output::OutputAudit;
use ks_audit_verdict::{OutputFault, print_no, print_yes};
use ks_edge::{Failed, Source};
use ks_job_source::{OpenAudit, SourceError, open_audit, print_bad_job};
use ks_run_output::print_read_fault;
use ks_task_processing::Processing;
use ks_topo::Topology;
use std::alloc::{AllocError, Global};
use std::thread::Threads;

// The bytes that the source is asked for at once.
const PIECE: usize = 65_536;

const YES: u8 = 0;

const BAD_JOB: u8 = 2;

const READ_FAULT: u8 = 6;

const NO: u8 = 10;

/// A status, and the text that goes with it.
#[derive(Drop)]
pub struct AuditAnswer {
    pub status: u8,
    pub text: Vec<u8>,
}

fn answer_yes(alloc: Global) -> Result<AuditAnswer, AllocError>
    ensures { IfOk result (λ a. (a.status ≡ 0) × (a.text.items ≡ yes_text)) }
{
    Ok(AuditAnswer {
        status: YES,
        text: print_yes(alloc)?,
    })
}

fn answer_no(alloc: Global, line: u64, fault: OutputFault) -> Result<AuditAnswer, AllocError>
    ensures { IfOk result (λ a. (a.status ≡ 10) × (a.text.items ≡ no_text line fault)) }
{
    let text = print_no(alloc, line, &fault);
    drop(fault);
    Ok(AuditAnswer {
        status: NO,
        text: text?,
    })
}

// What an output comes to whose input has ended.
fn end_output<'a, H: Processing + Send + Sync, R: Threads + Sync>(
    rt: &R,
    alloc: Global,
    topology: &'a Topology,
    output: OutputAudit<'a, H>,
    feed: &LineFeed,
) -> Result<AuditAnswer, AllocError>
    requires ready { IsReady (draft_of topology.now) }
    requires sound { IsSound H.hash_of output }
    requires same { output.topology.now ≡ topology.now }
    requires few { feed.now.lines < 2 ^ 63 }
    ensures { IfOk result (λ a. EndsOutput (rules_of H.hash_of) (draft_of topology.now)
        (place_in output.entry) (text_of output.entry) feed.now.line.items (feed.now.lines + 1)
        a.status a.text.items) }
{
    let line = feed.number();
    if feed.has_begun() {
        drop(output);
        return answer_no(alloc, line, OutputFault::NotJournal);
    }
    match judge_end::<H, R>(rt, alloc, topology, output)? {
        Some(fault) => answer_no(alloc, line, fault),
        None => answer_yes(alloc),
    }
}

// Asks the source for the next bytes, at most so many.
fn take_most<S: Source>(input: &mut S, buf: &mut [u8], most: usize) -> Result<usize, Failed>
    requires within { most ≤ length buf.old }
    ensures most { IfOk result (λ n. n ≤ most) }
    ensures bytes { IfOk result (λ n. Consumes (S.left input.old) (S.left input.new)
        (take n buf.new)) }
    ensures end { IfOk result (λ n. n ≡ 0 → 0 < most → IsAtEnd (S.left input.new)) }
    ensures kept { OnErr result (Keeps (S.left input.old) (S.left input.new)) }
    ensures cause { HasCause (S.faults input.old) (S.faults input.new) result }
    ensures buf { length buf.new ≡ length buf.old }
{
    input.take(&mut buf[..most])
}

// Takes the next bytes, at most as many as there is room for, and has the lines judged that end in them. So many were taken.
fn feed_next<H: Processing, S: Source>(
    alloc: Global,
    input: &mut S,
    buf: &mut [u8],
    output: &mut OutputAudit<'_, H>,
    feed: &mut LineFeed,
) -> Result<Result<usize, OutputFault>, SourceError>
    requires ready { IsReady (draft_in output.old) }
    requires sound { IsSound H.hash_of output.old }
    requires feed { IsFeed feed.old }
    requires some { 0 < length buf.old }
    ensures feed { IfOk result (λ r. OnOk r (IsFeed feed.new)) }
    ensures taken { IfOk result (λ r. IfOk r (λ n. feed.new.taken ≡ feed.old.taken + n)) }
    ensures loses { IfOk result (λ r. IfOk r (λ n. Loses H.hash_of (draft_in output.old) n
        (S.left input.old) (S.left input.new) feed.old.line.items feed.new.line.items
        feed.old.lines feed.new.lines output.old output.new)) }
    ensures refused { IfOk result (λ r. IfErr r (LosesFault H.hash_of (draft_in output.old)
        feed.old.taken (S.left input.old) (S.left input.new) feed.old.line.items
        feed.old.lines feed.new.lines output.old)) }
    ensures few { IfOk result (λ r. feed.new.lines < 2 ^ 63) }
    ensures kept { OnOk result (S.faults input.new ≡ S.faults input.old) }
    ensures fault { result ≡ Err SourceFault → Rose (S.faults input.old) (S.faults input.new) }
    ensures lost { result ≡ Err SourceFault → Keeps (S.left input.old) (S.left input.new) }
    ensures buf { length buf.new ≡ length buf.old }
{
    let room = feed.room(buf.len());
    let count = take_most(input, buf, room)?;
    match feed.feed(alloc, output, &buf[..count])? {
        Ok(()) => Ok(Ok(count)),
        Err(fault) => Ok(Err(fault)),
    }
}

// Takes what the source gives to its end, or to the first fault.
fn read_lines<H: Processing, S: Source>(
    alloc: Global,
    input: &mut S,
    buf: &mut [u8],
    output: &mut OutputAudit<'_, H>,
    feed: &mut LineFeed,
) -> Result<Result<(), OutputFault>, SourceError>
    requires ready { IsReady (draft_in output.old) }
    requires sound { IsSound H.hash_of output.old }
    requires feed { IsFeed feed.old }
    requires some { 0 < length buf.old }
    ensures reads { IfOk result (λ r. OnOk r (ReadsOut H.hash_of (draft_in output.old)
        feed.old.taken feed.new.taken (S.left input.old) (S.left input.new) feed.old.line.items
        feed.new.line.items feed.old.lines feed.new.lines output.old output.new)) }
    ensures refused { IfOk result (λ r. IfErr r (LosesFault H.hash_of (draft_in output.old)
        feed.old.taken (S.left input.old) (S.left input.new) feed.old.line.items
        feed.old.lines feed.new.lines output.old)) }
    ensures feed { IfOk result (λ r. OnOk r (IsFeed feed.new)) }
    ensures few { IfOk result (λ r. feed.new.lines < 2 ^ 63) }
    ensures kept { OnOk result (S.faults input.new ≡ S.faults input.old) }
    ensures fault { result ≡ Err SourceFault → Rose (S.faults input.old) (S.faults input.new) }
    ensures early { result ≡ Err SourceFault → EndsEarly (rules_of H.hash_of)
        (draft_in output.old) (place_in output.old) feed.old.taken feed.old.line.items
        (S.left input.old) (S.left input.new) }
{
    loop {
        match feed_next(alloc, input, buf, output, feed)? {
            Ok(count) => {
                if count == 0 {
                    return Ok(Ok(()));
                }
            }
            Err(fault) => return Ok(Err(fault)),
        }
    }
}

// Judges the lines of these bytes, and of what the source gives, to its end or to the first fault.
fn read_all<H: Processing, S: Source>(
    alloc: Global,
    rest: &[u8],
    input: &mut S,
    buf: &mut [u8],
    output: &mut OutputAudit<'_, H>,
    feed: &mut LineFeed,
) -> Result<Result<(), OutputFault>, SourceError>
    requires ready { IsReady (draft_in output.old) }
    requires sound { IsSound H.hash_of output.old }
    requires feed { IsFeed feed.old }
    requires begun { feed.old.line.items ≡ [] }
    requires some { 0 < length buf.old }
    ensures reads { IfOk result (λ r. OnOk r (ReadsAll H.hash_of (draft_in output.old)
        feed.old.taken feed.new.taken rest.now (S.left input.old) (S.left input.new)
        feed.new.line.items feed.old.lines feed.new.lines output.old output.new)) }
    ensures refused { IfOk result (λ r. IfErr r (ReadsFault H.hash_of (draft_in output.old)
        feed.old.taken rest.now (S.left input.old) (S.left input.new)
        feed.old.lines feed.new.lines output.old)) }
    ensures feed { IfOk result (λ r. OnOk r (IsFeed feed.new)) }
    ensures few { IfOk result (λ r. feed.new.lines < 2 ^ 63) }
    ensures kept { OnOk result (S.faults input.new ≡ S.faults input.old) }
    ensures fault { result ≡ Err SourceFault → Rose (S.faults input.old) (S.faults input.new) }
    ensures early { result ≡ Err SourceFault → EndsEarly (rules_of H.hash_of)
        (draft_in output.old) (place_in output.old) (feed.old.taken + length rest.now) rest.now
        (S.left input.old) (S.left input.new) }
{
    match feed.feed(alloc, output, rest)? {
        Ok(()) => read_lines(alloc, input, buf, output, feed),
        Err(fault) => Ok(Err(fault)),
    }
}

// Reads an output to its end or to its first fault.
fn read_output<H: Processing + Send + Sync, R: Threads + Sync, S: Source>(
    rt: &R,
    alloc: Global,
    open: &OpenAudit,
    input: &mut S,
    buf: &mut [u8],
) -> Result<AuditAnswer, SourceError>
    requires ready { IsReady (draft_of open.now.topology) }
    requires within { open.now.taken < 67174401 }
    requires few { open.now.line ≤ open.now.taken }
    requires some { 0 < length buf.old }
    ensures answers { IfOk result (λ a. AnswersOutput (rules_of H.hash_of)
        (draft_of open.now.topology) open.now.line open.now.taken open.now.rest.items
        (S.left input.old) (S.left input.new) a.status a.text.items) }
    ensures kept { OnOk result (S.faults input.new ≡ S.faults input.old) }
    ensures fault { result ≡ Err SourceFault → Rose (S.faults input.old) (S.faults input.new) }
    ensures early { result ≡ Err SourceFault → EndsEarly (rules_of H.hash_of)
        (draft_of open.now.topology) first_line (open.now.taken + length open.now.rest.items)
        open.now.rest.items (S.left input.old) (S.left input.new) }
{
    let mut output = OutputAudit::<H>::new(alloc, &open.topology)?;
    let mut feed = LineFeed::new(alloc, open.line, open.taken);
    let rest = open.rest.as_slice();
    match read_all(alloc, rest, input, buf, &mut output, &mut feed) {
        Ok(Ok(())) => Ok(end_output::<H, R>(rt, alloc, &open.topology, output, &feed)?),
        Ok(Err(fault)) => {
            drop(output);
            Ok(answer_no(alloc, feed.number(), fault)?)
        }
        Err(error) => {
            drop(output);
            Err(error)
        }
    }
}

// Audits what stands behind a topology line.
fn audit_open<H: Processing + Send + Sync, R: Threads + Sync, S: Source>(
    rt: &R,
    alloc: Global,
    open: &OpenAudit,
    input: &mut S,
    buf: &mut [u8],
) -> Result<AuditAnswer, SourceError>
    requires ready { IsReady (draft_of open.now.topology) }
    requires within { open.now.taken < 67174401 }
    requires few { open.now.has_end ≡ true → open.now.line ≤ open.now.taken }
    requires some { 0 < length buf.old }
    ensures ended { IfOk result (λ a. open.now.has_end ≡ true
        → AnswersOutput (rules_of H.hash_of) (draft_of open.now.topology) open.now.line
        open.now.taken open.now.rest.items (S.left input.old) (S.left input.new)
        a.status a.text.items) }
    ensures unended { IfOk result (λ a. open.now.has_end ≡ false → (a.status ≡ 10)
        × (a.text.items ≡ no_text open.now.line NotJournal)
        × (S.left input.new ≡ S.left input.old)) }
    ensures kept { OnOk result (S.faults input.new ≡ S.faults input.old) }
    ensures fault { result ≡ Err SourceFault → Rose (S.faults input.old) (S.faults input.new) }
    ensures whole { result ≡ Err SourceFault → open.now.has_end ≡ true }
    ensures early { result ≡ Err SourceFault → EndsEarly (rules_of H.hash_of)
        (draft_of open.now.topology) first_line (open.now.taken + length open.now.rest.items)
        open.now.rest.items (S.left input.old) (S.left input.new) }
{
    if open.has_end {
        read_output::<H, R, S>(rt, alloc, open, input, buf)
    } else {
        Ok(answer_no(alloc, open.line, OutputFault::NotJournal)?)
    }
}

// So many zeros.
fn zeros(alloc: Global, count: usize) -> Result<Vec<u8>, AllocError>
    ensures { IfOk result (λ v. vec_len v ≡ count) }
{
    vec![in alloc; 0u8; count]
}

fn audit_by<H: Processing + Send + Sync, R: Threads + Sync, S: Source>(
    rt: &R,
    alloc: Global,
    input: &mut S,
    buf: &mut [u8],
) -> Result<AuditAnswer, SourceError>
    requires some { 0 < length buf.old }
    requires room { length buf.old ≤ 4194304 }
    ensures answer { IfOk result (λ a. IsAuditAnswer (rules_of H.hash_of) (S.left input.old)
        (S.left input.new) (S.faults input.old) (S.faults input.new) a.status a.text.items) }
    ensures fault { result ≡ Err SourceFault → Rose (S.faults input.old) (S.faults input.new) }
    ensures early { result ≡ Err SourceFault → TookNothingFaulty (rules_of H.hash_of)
        (S.left input.old) (S.left input.new) }
{
    match open_audit(alloc, input, buf)? {
        Ok(open) => {
            let answer = audit_open::<H, R, S>(rt, alloc, &open, input, buf);
            drop(open);
            answer
        }
        Err(stop) => {
            let text = print_bad_job(alloc, &stop);
            drop(stop);
            Ok(AuditAnswer {
                status: BAD_JOB,
                text: text?,
            })
        }
    }
}

/// Audits what the source holds: a topology line, before which blank lines may stand, and the output of a settled run with its journal.
/// Nothing is written yet. Want of memory is the one error.
///
/// | Status | Comes | Text |
/// |---|---|---|
/// | 0 | the lines behind the topology's are what a settled run of it prints with its journal | `yes` |
/// | 10 | they aren't, or a length is passed | `no L FAULT`: the first line that shows it, and its first fault |
/// | 2 | the topology line has a fault | `bad job line L: FAULT` |
/// | 6 | the source failed, and no line before has a fault | `read fault` |
pub fn audit_source<H: Processing + Send + Sync, R: Threads + Sync, S: Source>(
    rt: &R,
    alloc: Global,
    input: &mut S,
) -> Result<AuditAnswer, AllocError>
    ensures { IfOk result (λ a. IsAuditAnswer (rules_of H.hash_of) (S.left input.old)
        (S.left input.new) (S.faults input.old) (S.faults input.new) a.status a.text.items) }
{
    let mut buf = zeros(alloc, PIECE)?;
    match audit_by::<H, R, S>(rt, alloc, input, buf.as_mut_slice()) {
        Ok(answer) => Ok(answer),
        Err(SourceError::Memory) => Err(AllocError),
        Err(SourceError::Fault) => Ok(AuditAnswer {
            status: READ_FAULT,
            text: print_read_fault(alloc)?,
        }),
    }
}
