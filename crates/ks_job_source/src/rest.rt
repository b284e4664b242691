//! A job that is read on, piece by piece.
ghost use Rattle.std.specs.Prelude.{◌≡◌, ◌≤◌, [], None, Err, length, IfOk, IfSome, OnOk};
ghost use Rattle.std.specs.Io.KnownBytes.{Keeps};
ghost use Rattle.ks_edge.specs.Causes.{Rose};
ghost use Rattle.ks_job.specs.Items.{item_views};
ghost use Rattle.ks_job.specs.Reader.{after, end_of};
ghost use Rattle.ks_job_source.specs.Opening.{from, end_at, IsReading};
ghost use Rattle.ks_job_source.specs.Splitting.{standing_after, standing_ended};
ghost use Rattle.ks_job_source.specs.Steps.{StepsOn, StepsPast, GoesFurther, GoesPast};

use crate::reading::SourceError;
use crate::stop::JobStop;
use ks_edge::Source;
use ks_job::{JobItem, JobReader};
use std::alloc::{AllocError, Global};
use std::mem;
use std::thread::Threads;

/// Where reading a job stands.
#[derive(Drop)]
pub enum Standing {
    /// Past the bytes so far, in which there was nothing to stop at.
    Reading(JobReader),
    /// At the end of the input, in which there was nothing to stop at.
    Whole,
    /// At what it stops at.
    Stopped(JobStop),
    /// Nowhere, since the source failed or memory ran out.
    Lost,
}

/// How reading a job ended.
#[derive(Drop)]
pub enum JobEnd {
    /// All of it was read, and there was nothing to stop at.
    Whole,
    /// It stops there.
    Stopped(JobStop),
    /// The source failed.
    Failed,
}

/// What is left to read of a job.
#[derive(Drop)]
pub struct JobRest {
    pub standing: Standing,
    /// How many bytes were taken since the job was opened.
    pub taken: u64,
    /// Where the source puts its bytes.
    pub buf: Vec<u8>,
}

// What comes after a piece; its items are pushed.
fn take_piece<R: Threads + Sync>(
    rt: &R,
    mut reader: JobReader,
    piece: &[u8],
    items: &mut Vec<JobItem>,
) -> Result<Standing, AllocError>
    requires { items.old.items ≡ [] }
    ensures standing { IfOk result (λ s. IfSome reader
        (λ r. s ≡ standing_after (after (from r) piece.now).reader)) }
    ensures items { OnOk result (IfSome reader
        (λ r. item_views items.new.items ≡ (after (from r) piece.now).items)) }
{
    match reader.feed_wide(rt, piece, items) {
        Ok(Ok(())) => Ok(Standing::Reading(reader)),
        Ok(Err(fault)) => {
            drop(reader);
            Ok(Standing::Stopped(JobStop::BadLine {
                line: fault.line,
                kind: fault.kind,
            }))
        }
        Err(error) => {
            drop(reader);
            Err(error)
        }
    }
}

// What comes at the end of the input; the item of a last line without an end is pushed.
fn take_end(reader: JobReader, items: &mut Vec<JobItem>) -> Result<Standing, AllocError>
    requires { items.old.items ≡ [] }
    ensures standing { IfOk result (λ s. IfSome reader
        (λ r. s ≡ standing_ended (end_of r []).reader)) }
    ensures items { OnOk result (IfSome reader
        (λ r. item_views items.new.items ≡ (end_of r []).items)) }
{
    match reader.finish(items)? {
        Ok(()) => Ok(Standing::Whole),
        Err(fault) => Ok(Standing::Stopped(JobStop::BadLine {
            line: fault.line,
            kind: fault.kind,
        })),
    }
}

// Reads the next piece, or the end; says where reading stands then, and how many bytes were taken.
fn read_next<R: Threads + Sync, S: Source>(
    rt: &R,
    input: &mut S,
    reader: JobReader,
    buf: &mut [u8],
    items: &mut Vec<JobItem>,
) -> Result<(Standing, usize), SourceError>
    requires room { 1 ≤ length buf.old }
    requires none { items.old.items ≡ [] }
    ensures kept { OnOk result (S.faults input.new ≡ S.faults input.old) }
    ensures goes { IfOk result (λ p. StepsOn (S.left input.old) (S.left input.new) reader p.0
        (item_views items.new.items)) }
    ensures past { IfOk result (λ p. StepsPast reader p.0 p.1 (item_views items.new.items)) }
    ensures room { length buf.new ≡ length buf.old }
    ensures fault { result ≡ Err SourceError.Fault → Rose (S.faults input.old) (S.faults input.new)
        × Keeps (S.left input.old) (S.left input.new) }
{
    let count = match input.take(buf) {
        Ok(count) => count,
        Err(_) => {
            drop(reader);
            return Err(SourceError::Fault);
        }
    };
    if count == 0 {
        let standing = take_end(reader, items)?;
        return Ok((standing, 0));
    }
    let standing = take_piece(rt, reader, &buf[..count], items)?;
    Ok((standing, count))
}

impl JobRest {
    /// How reading ended, where it has. It then stands nowhere.
    pub fn end(&mut self) -> Option<JobEnd>
        ensures end { result ≡ end_at self.old.standing }
        ensures kept { result ≡ None → self.new ≡ self.old }
    {
        match mem::replace(&mut self.standing, Standing::Lost) {
            Standing::Whole => Some(JobEnd::Whole),
            Standing::Stopped(stop) => Some(JobEnd::Stopped(stop)),
            Standing::Reading(reader) => {
                drop(mem::replace(&mut self.standing, Standing::Reading(reader)));
                None
            }
            Standing::Lost => None,
        }
    }

    /// Reads the next piece, or the end, and gives the records of the lines that are whole now. After a failure it stands nowhere.
    pub fn read_on<R: Threads + Sync, S: Source>(
        &mut self,
        rt: &R,
        alloc: Global,
        input: &mut S,
    ) -> Result<Vec<JobItem>, SourceError>
        requires reading { IsReading self.old.standing }
        requires room { 1 ≤ length self.old.buf.items }
        ensures kept { OnOk result (S.faults input.new ≡ S.faults input.old) }
        ensures goes { IfOk result (λ v. GoesFurther (S.left input.old) (S.left input.new)
            self.old.standing self.new.standing (item_views v.items)) }
        ensures past { IfOk result (λ v. GoesPast self.old.standing self.new.standing self.old.taken
            self.new.taken (item_views v.items)) }
        ensures room { OnOk result (1 ≤ length self.new.buf.items) }
        ensures fault { result ≡ Err SourceError.Fault
            → Rose (S.faults input.old) (S.faults input.new)
            × Keeps (S.left input.old) (S.left input.new) }
    {
        let mut items = Vec::new(alloc);
        let reader = match mem::replace(&mut self.standing, Standing::Lost) {
            Standing::Reading(reader) => reader,
            standing => {
                drop(standing);
                unreachable!()
            }
        };
        let (standing, count) = read_next(rt, input, reader, &mut self.buf, &mut items)?;
        drop(mem::replace(&mut self.standing, standing));
        let taken = self.taken.saturating_add(count as u64);
        self.taken = taken;
        Ok(items)
    }
}
