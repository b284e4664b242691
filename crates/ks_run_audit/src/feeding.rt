//! Cuts what is read into lines, and has each of them judged.
ghost use Rattle.std.specs.Prelude.{◌≡◌, ◌++◌, ◌+◌, ◌^◌, ◌<◌, ◌≤◌, ℕ, [], true, false, IfOk, IfErr, OnOk, ◌-◌, length, min};
ghost use Rattle.ks_def_tasks.specs.Rules.{rules_of};
ghost use Rattle.ks_audit_verdict.specs.declared.fault.OutputFault.TheVariants.{TooLong};
ghost use Rattle.ks_audit_verdict.specs.Lines.{IsPlain};
ghost use Rattle.ks_job_source.specs.Opened.{IsReady};
ghost use Rattle.ks_run_audit.specs.Outputs.{IsSound, TakesOutput, place_in};
ghost use Rattle.ks_run_audit.specs.Feeding.{Feeds, IsFeed, IsRefusal, RefusesBytes, draft_in};

use crate::output::OutputAudit;
use ks_audit_verdict::OutputFault;
use ks_job_source::cut_line;
use ks_task_processing::Processing;
use std::alloc::{AllocError, Global};

/// The most bytes of a line, without its end.
const MOST_LINE: usize = 67_108_864;

// The most bytes of the input.
const MOST_INPUT: u64 = 536_870_912;

/// The line that has begun, and how many lines and bytes there were before.
#[derive(Drop)]
pub(crate) struct LineFeed {
    line: Vec<u8>,
    lines: u64,
    taken: u64,
}

impl LineFeed {
    /// Behind so many lines, which have so many bytes.
    pub fn new(alloc: Global, lines: u64, taken: u64) -> LineFeed
        ensures line { result.line.items ≡ [] }
        ensures lines { result.lines ≡ lines }
        ensures taken { result.taken ≡ taken }
    {
        LineFeed {
            line: Vec::new(alloc),
            lines,
            taken,
        }
    }

    /// The number of the line that has begun. Takes no memory.
    pub fn number(&self) -> u64
        requires { self.now.lines < 2 ^ 63 }
        ensures { result ≡ self.now.lines + 1 }
    {
        self.lines.saturating_add(1)
    }

    /// Whether a line has begun. Takes no memory.
    pub fn has_begun(&self) -> bool
        ensures no { result ≡ false → self.now.line.items ≡ [] }
        ensures yes { self.now.line.items ≡ [] → result ≡ false }
    {
        !self.line.is_empty()
    }

    /// How many bytes may be asked for at once: the lesser of so many and of what is left up to one past the most of the input. Takes no
    /// memory.
    pub fn room(&self, most: usize) -> usize
        requires within { self.now.taken ≤ 536870912 }
        ensures { result ≡ min (536870913 - self.now.taken) most }
    {
        let room = (MOST_INPUT + 1).saturating_sub(self.taken) as usize;
        room.min(most)
    }

    // Judges the line that ends here.
    fn end_line<H: Processing>(
        &mut self,
        alloc: Global,
        output: &mut OutputAudit<'_, H>,
        end: &[u8],
    ) -> Result<Result<(), OutputFault>, AllocError>
        requires ready { IsReady (draft_in output.old) }
        requires sound { IsSound H.hash_of output.old }
        ensures taken { IfOk result (λ r. OnOk r (TakesOutput H.hash_of
            (self.old.line.items ++ end.now) output.old output.new)) }
        ensures empty { IfOk result (λ r. OnOk r (self.new.line.items ≡ [])) }
        ensures short { IfOk result (λ r. OnOk r (length (self.old.line.items ++ end.now)
            ≤ 67108864)) }
        ensures refused { IfOk result (λ r. IfErr r (IsRefusal (rules_of H.hash_of)
            (draft_in output.old) (place_in output.old) (self.old.line.items ++ end.now))) }
        ensures taken_before { self.new.taken ≡ self.old.taken }
        ensures lines { self.new.lines ≡ self.old.lines }
    {
        if self.line.is_empty() {
            return judge_line(alloc, output, end);
        }
        self.line.extend_from_slice(end)?;
        let answer = judge_line(alloc, output, self.line.as_slice())?;
        self.line.clear();
        Ok(answer)
    }

    // Keeps what begins a line, or goes on with the one that has begun; or tells that it is too long.
    fn begin_line(&mut self, rest: &[u8]) -> Result<Result<(), OutputFault>, AllocError>
        ensures kept { IfOk result (λ r. OnOk r ((self.new.line.items
            ≡ self.old.line.items ++ rest.now) × (length self.new.line.items ≤ 67108864))) }
        ensures long { IfOk result (λ r. IfErr r (λ fault. (fault ≡ TooLong)
            × (67108864 < length (self.old.line.items ++ rest.now)))) }
        ensures lines { self.new.lines ≡ self.old.lines }
        ensures taken { self.new.taken ≡ self.old.taken }
    {
        self.line.extend_from_slice(rest)?;
        if self.line.len() > MOST_LINE {
            return Ok(Err(OutputFault::TooLong));
        }
        Ok(Ok(()))
    }

    // Judges the lines that end in some bytes within the most of the input, and keeps what begins another.
    fn feed_within<H: Processing>(
        &mut self,
        alloc: Global,
        output: &mut OutputAudit<'_, H>,
        bytes: &[u8],
    ) -> Result<Result<(), OutputFault>, AllocError>
        requires ready { IsReady (draft_in output.old) }
        requires sound { IsSound H.hash_of output.old }
        requires plain { IsPlain self.old.line.items }
        requires few { self.old.lines + length bytes.now < 2 ^ 63 }
        ensures fed { IfOk result (λ r. OnOk r (Feeds H.hash_of (draft_in output.old) bytes.now
            self.old.line.items self.new.line.items self.old.lines self.new.lines
            output.old output.new)) }
        ensures refused { IfOk result (λ r. IfErr r (λ fault. (at : ℕ)
            → at + length self.old.line.items + length bytes.now ≤ 536870912
            → RefusesBytes H.hash_of (draft_in output.old) at bytes.now self.old.line.items
            self.old.lines self.new.lines output.old fault)) }
        ensures few { self.new.lines ≤ self.old.lines + length bytes.now }
        ensures taken { self.new.taken ≡ self.old.taken }
    {
        let mut rest = bytes;
        while let Some((end, more)) = cut_line(rest) {
            if let Err(fault) = self.end_line(alloc, output, end)? {
                return Ok(Err(fault));
            }
            self.lines = self.lines.saturating_add(1);
            rest = more;
        }
        self.begin_line(rest)
    }

    // How many bytes more the input may have.
    fn bytes_left(&self) -> usize
        requires { self.now.taken ≤ 536870912 }
        ensures { self.now.taken + result ≡ 536870912 }
    {
        (MOST_INPUT - self.taken) as usize
    }

    // Takes bytes with which the input isn't too long.
    fn feed_whole<H: Processing>(
        &mut self,
        alloc: Global,
        output: &mut OutputAudit<'_, H>,
        bytes: &[u8],
    ) -> Result<Result<(), OutputFault>, AllocError>
        requires ready { IsReady (draft_in output.old) }
        requires sound { IsSound H.hash_of output.old }
        requires feed { IsFeed self.old }
        requires room { self.old.taken + length bytes.now ≤ 536870912 }
        ensures feed { IfOk result (λ r. OnOk r (IsFeed self.new)) }
        ensures fed { IfOk result (λ r. OnOk r (Feeds H.hash_of (draft_in output.old) bytes.now
            self.old.line.items self.new.line.items self.old.lines self.new.lines
            output.old output.new)) }
        ensures taken { IfOk result (λ r. OnOk r (self.new.taken
            ≡ self.old.taken + length bytes.now)) }
        ensures refused { IfOk result (λ r. IfErr r (λ fault. (at : ℕ)
            → at + length self.old.line.items ≡ self.old.taken
            → RefusesBytes H.hash_of (draft_in output.old) at bytes.now self.old.line.items
            self.old.lines self.new.lines output.old fault)) }
        ensures few { IfOk result (λ r. self.new.lines < 2 ^ 63) }
    {
        self.taken += bytes.len() as u64;
        self.feed_within(alloc, output, bytes)
    }

    // Takes bytes with which the input is too long, if no line before has a fault.
    fn feed_past<H: Processing>(
        &mut self,
        alloc: Global,
        output: &mut OutputAudit<'_, H>,
        bytes: &[u8],
        room: usize,
    ) -> Result<Result<(), OutputFault>, AllocError>
        requires ready { IsReady (draft_in output.old) }
        requires sound { IsSound H.hash_of output.old }
        requires feed { IsFeed self.old }
        requires room { self.old.taken + room ≡ 536870912 }
        requires past { room < length bytes.now }
        ensures never { IfOk result (λ r. OnOk r ⊥) }
        ensures refused { IfOk result (λ r. IfErr r (λ fault. (at : ℕ)
            → at + length self.old.line.items ≡ self.old.taken
            → RefusesBytes H.hash_of (draft_in output.old) at bytes.now self.old.line.items
            self.old.lines self.new.lines output.old fault)) }
        ensures few { IfOk result (λ r. self.new.lines < 2 ^ 63) }
    {
        match self.feed_within(alloc, output, &bytes[..room])? {
            Ok(()) => Ok(Err(OutputFault::TooLong)),
            Err(fault) => Ok(Err(fault)),
        }
    }

    /// Takes the next bytes; or tells the first fault of the first faulty line among those that are whole, which is then the one that has
    /// begun. Want of memory is the one outer error.
    pub fn feed<H: Processing>(
        &mut self,
        alloc: Global,
        output: &mut OutputAudit<'_, H>,
        bytes: &[u8],
    ) -> Result<Result<(), OutputFault>, AllocError>
        requires ready { IsReady (draft_in output.old) }
        requires sound { IsSound H.hash_of output.old }
        requires feed { IsFeed self.old }
        ensures feed { IfOk result (λ r. OnOk r (IsFeed self.new)) }
        ensures fed { IfOk result (λ r. OnOk r (Feeds H.hash_of (draft_in output.old) bytes.now
            self.old.line.items self.new.line.items self.old.lines self.new.lines
            output.old output.new)) }
        ensures taken { IfOk result (λ r. OnOk r (self.new.taken
            ≡ self.old.taken + length bytes.now)) }
        ensures refused { IfOk result (λ r. IfErr r (λ fault. (at : ℕ)
            → at + length self.old.line.items ≡ self.old.taken
            → RefusesBytes H.hash_of (draft_in output.old) at bytes.now self.old.line.items
            self.old.lines self.new.lines output.old fault)) }
        ensures few { IfOk result (λ r. self.new.lines < 2 ^ 63) }
    {
        let room = self.bytes_left();
        if bytes.len() > room {
            return self.feed_past(alloc, output, bytes, room);
        }
        self.feed_whole(alloc, output, bytes)
    }
}

// A line, without its end.
fn judge_line<H: Processing>(
    alloc: Global,
    output: &mut OutputAudit<'_, H>,
    line: &[u8],
) -> Result<Result<(), OutputFault>, AllocError>
    requires ready { IsReady (draft_in output.old) }
    requires sound { IsSound H.hash_of output.old }
    ensures taken { IfOk result (λ r. OnOk r (TakesOutput H.hash_of line.now
        output.old output.new)) }
    ensures short { IfOk result (λ r. OnOk r (length line.now ≤ 67108864)) }
    ensures refused { IfOk result (λ r. IfErr r (IsRefusal (rules_of H.hash_of)
        (draft_in output.old) (place_in output.old) line.now)) }
{
    if line.len() > MOST_LINE {
        return Ok(Err(OutputFault::TooLong));
    }
    output.line(alloc, line)
}
