//! An output, judged line by line.
ghost use Rattle.std.specs.Prelude.{◌≡◌, ◌++◌, ◌+◌, ◌^◌, ◌<◌, ◌≤◌, ◌∷◌, [], ℕ, List, true, false, None, Some, Ok, IfOk, IfErr, IfSome, OnOk, length, codes, drop, get_or};
ghost use Rattle.std.specs.Str.{IsUtf8};
ghost use Rattle.ks_plan.specs.Drafts.{op_view};
ghost use Rattle.ks_query.specs.Printed.{head_line};
ghost use Rattle.ks_topo.specs.Topologies.{draft_of};
ghost use Rattle.ks_def_tasks.specs.Rules.{rules_of};
ghost use Rattle.ks_settle.specs.Rows.{IsPrinted, counts_windows, node_named};
ghost use Rattle.ks_history.specs.declared.journal.Entry.{Entry};
ghost use Rattle.ks_journal.specs.Lines.{journal_text};
ghost use Rattle.ks_audit.specs.Audits.{journal_of};
ghost use Rattle.ks_run_audit.specs.declared.output.Stage.TheVariants.{Settled, Head, Row, Journal};
ghost use Rattle.ks_audit_verdict.specs.declared.fault.OutputFault.TheVariants.{NotJournal};
ghost use Rattle.ks_job_source.specs.Opened.{IsReady};
ghost use Rattle.ks_audit_verdict.specs.Lines.{ended};
ghost use Rattle.ks_audit_verdict.specs.Places.{IsUnlike, RefusesAt, has_windows, next_row, next_table};
ghost use Rattle.ks_audit_verdict.specs.Places.Place.{first_line, journal_line};
ghost use Rattle.ks_run_audit.specs.Outputs.{FitsNext, IsSound, TakesFront, TakesOutput, last_name, names_of, place_in, place_of, text_of, windows_of};

use ks_audit::Audit;
use ks_audit_verdict::{OutputFault, journal_fault};
use ks_table_line::{is_row_line, read_head};
use ks_task_processing::Processing;
use ks_topo::{Node, Op, Topology};
use std::alloc::{AllocError, Global};
use std::str;

// What the next line is to be.
#[derive(Clone, Copy, PartialEq, Eq)]
pub(crate) enum Stage {
    Settled,
    Head,
    // a row, of so many that are left
    Row(usize),
    Journal,
}

/// An output so far: what its next line is to be, the lines of its tables, and the audit of its journal.
#[derive(Drop)]
pub(crate) struct OutputAudit<'a, H: Processing> {
    topology: &'a Topology,
    audit: Audit<'a, H>,
    stage: Stage,
    // how many tables have begun, and their lines so far, each with its end
    begun: usize,
    tables: Vec<u8>,
}

fn counts_windows(op: &Op) -> bool
    ensures { result ≡ counts_windows (op_view op.now) }
{
    match op {
        Op::WindowedCount { .. } => true,
        _ => false,
    }
}

// Whether the first node of a name counts by windows.
fn is_counting(nodes: &[Node], name: &[u8]) -> bool
    ensures { result ≡ windows_of (node_named nodes.now name.now) }
{
    let mut rest = nodes;
    while let [first, more @ ..] = rest {
        if first.name.as_str().as_bytes() == name {
            return counts_windows(&first.op);
        }
        rest = more;
    }
    false
}

// Whether a table that is printed has windows.
fn is_windowed(topology: &Topology, name: &[u8]) -> bool
    requires { IsPrinted (draft_of topology.now) name.now }
    ensures { result ≡ has_windows (draft_of topology.now) name.now }
{
    is_counting(topology.nodes(), name)
}

// The name of the table with this number among those that are printed.
fn name_at(topology: &Topology, i: usize) -> &[u8]
    requires { i < length (draft_of topology.now).print }
    ensures { result.now ≡ get_or (draft_of topology.now).print i [] }
{
    let names = topology.print();
    names[i].as_slice()
}

fn is_settled(line: &[u8]) -> bool
    ensures yes { result ≡ true → line.now ≡ codes "settled" }
    ensures no { line.now ≡ codes "settled" → result ≡ true }
{
    line == b"settled".as_slice()
}

// The number of rows that the head of a table tells, where the line is one.
fn row_count(alloc: Global, name: &[u8], line: &[u8]) -> Result<Option<usize>, AllocError>
    ensures found { IfOk result (λ o. IfSome o (λ n. (n < 2 ^ 64)
        × (ended line.now ≡ head_line name.now n))) }
    ensures none { IfOk result (λ o. o ≡ None → IsUtf8 name.now → (count : ℕ) → count < 2 ^ 64
        → ended line.now ≡ head_line name.now count → ⊥) }
{
    match str::from_utf8(name) {
        Ok(text) => read_head(alloc, text, line),
        Err(_) => Ok(None),
    }
}

// A line that isn't of the form that stands at its place is faulty.
fn or_unlike(is_taken: bool) -> Result<(), OutputFault>
    ensures taken { OnOk result (is_taken ≡ true) }
    ensures unlike { IfErr result (λ f. (is_taken ≡ false) × (f ≡ NotJournal)) }
{
    if is_taken {
        Ok(())
    } else {
        Err(OutputFault::NotJournal)
    }
}

// A line more, with its end.
fn push_line(lines: &mut Vec<u8>, line: &[u8]) -> Result<(), AllocError>
    ensures { OnOk result (lines.new.items ≡ lines.old.items ++ ended line.now) }
{
    lines.extend_from_slice(line)?;
    lines.push(b'\n')?;
    Ok(())
}

impl<'a, H: Processing> OutputAudit<'a, H> {
    /// Nothing of an output yet. Want of memory is the one error.
    pub fn new(alloc: Global, topology: &'a Topology) -> Result<OutputAudit<'a, H>, AllocError>
        requires ready { IsReady (draft_of topology.now) }
        ensures topology { IfOk result (λ o. o.topology ≡ topology.entry) }
        ensures sound { IfOk result (IsSound H.hash_of) }
        ensures text { IfOk result (λ o. text_of o ≡ []) }
        ensures place { IfOk result (λ o. place_in o ≡ first_line) }
    {
        Ok(OutputAudit {
            topology,
            audit: Audit::new(alloc, topology)?,
            stage: Stage::Settled,
            begun: 0,
            tables: Vec::new(alloc),
        })
    }

    // What stands behind a whole table, and behind `settled`.
    #[tactic(auto, using(crate::proofs::Along::tables_over))]
    fn next_table(&self) -> Stage
        requires { self.now.begun ≤ names_of self.now }
        ensures fits { FitsNext result self.now.begun (names_of self.now) }
        ensures place { place_of (draft_of self.now.topology.now) result
            self.now.begun []
            ≡ next_table (drop self.now.begun
            (draft_of self.now.topology.now).print) }
    {
        if self.begun < self.topology.print().len() {
            Stage::Head
        } else {
            Stage::Journal
        }
    }

    // How many tables have begun with another one: no more than there are.
    fn with_another(&self) -> usize
        requires { self.now.begun < names_of self.now }
        ensures { result ≡ self.now.begun + 1 }
    {
        self.begun
            .saturating_add(1)
            .min(self.topology.print().len())
    }

    // What stands behind a line of a table with so many rows left.
    #[tactic(auto, using(crate::proofs::Along::no_rows))]
    fn stage_with(&self, left: usize) -> Stage
        requires some { 0 < self.now.begun }
        requires most { self.now.begun ≤ names_of self.now }
        ensures fits { FitsNext result self.now.begun (names_of self.now) }
        ensures place { place_of (draft_of self.now.topology.now) result
            self.now.begun []
            ≡ next_row (has_windows (draft_of self.now.topology.now)
            (last_name self.now)) left (drop self.now.begun
            (draft_of self.now.topology.now).print) }
    {
        if left == 0 {
            self.next_table()
        } else {
            Stage::Row(left)
        }
    }

    fn take_settled(&mut self, line: &[u8]) -> bool
        requires stage { self.old.stage ≡ Settled }
        requires none { self.old.begun ≡ 0 }
        requires empty { self.old.tables.items ≡ [] }
        requires begins { journal_of self.old.audit ≡ [] }
        ensures yes { result ≡ true → TakesFront H.hash_of line.now self.old self.new }
        ensures no { result ≡ false → IsUnlike (rules_of H.hash_of)
            (draft_of self.old.topology.now) (place_in self.old) line.now }
    {
        self.stage = self.next_table();
        is_settled(line)
    }

    fn take_head(&mut self, alloc: Global, line: &[u8]) -> Result<bool, AllocError>
        requires stage { self.old.stage ≡ Head }
        requires fewer { self.old.begun < names_of self.old }
        requires begins { journal_of self.old.audit ≡ [] }
        ensures yes { IfOk result (λ b. b ≡ true → TakesFront H.hash_of line.now
            self.old self.new) }
        ensures no { IfOk result (λ b. b ≡ false → IsUnlike (rules_of H.hash_of)
            (draft_of self.old.topology.now) (place_in self.old) line.now) }
    {
        let name = name_at(self.topology, self.begun);
        let Some(count) = row_count(alloc, name, line)? else {
            return Ok(false);
        };
        push_line(&mut self.tables, line)?;
        self.begun = self.with_another();
        self.stage = self.stage_with(count);
        Ok(true)
    }

    fn take_row(&mut self, alloc: Global, left: usize, line: &[u8]) -> Result<bool, AllocError>
        requires stage { self.old.stage ≡ Row left }
        requires more { 0 < left }
        requires some { 0 < self.old.begun }
        requires most { self.old.begun ≤ names_of self.old }
        requires begins { journal_of self.old.audit ≡ [] }
        ensures yes { IfOk result (λ b. b ≡ true → TakesFront H.hash_of line.now
            self.old self.new) }
        ensures no { IfOk result (λ b. b ≡ false → IsUnlike (rules_of H.hash_of)
            (draft_of self.old.topology.now) (place_in self.old) line.now) }
    {
        let name = name_at(self.topology, self.begun - 1);
        let windowed = is_windowed(self.topology, name);
        if !is_row_line(alloc, windowed, line)? {
            return Ok(false);
        }
        push_line(&mut self.tables, line)?;
        self.stage = self.stage_with(left - 1);
        Ok(true)
    }

    fn take_entry(
        &mut self,
        alloc: Global,
        line: &[u8],
    ) -> Result<Result<(), OutputFault>, AllocError>
        requires ready { IsReady (draft_of self.old.topology.now) }
        requires sound { IsSound H.hash_of self.old }
        requires stage { self.old.stage ≡ Journal }
        ensures taken { IfOk result (λ r. OnOk r (TakesOutput H.hash_of line.now
            self.old self.new)) }
        ensures refused { IfOk result (λ r. IfErr r (RefusesAt (rules_of H.hash_of)
            (draft_of self.old.topology.now) (place_in self.old) line.now)) }
    {
        match self.audit.line(alloc, line)? {
            Ok(()) => Ok(Ok(())),
            Err(fault) => Ok(Err(journal_fault(fault))),
        }
    }

    /// Takes the next line, without its end; or tells its first fault. Want of memory is the one outer error; after both the audit is to be
    /// dropped.
    pub fn line(
        &mut self,
        alloc: Global,
        line: &[u8],
    ) -> Result<Result<(), OutputFault>, AllocError>
        requires ready { IsReady (draft_of self.old.topology.now) }
        requires sound { IsSound H.hash_of self.old }
        ensures taken { IfOk result (λ r. OnOk r (TakesOutput H.hash_of line.now
            self.old self.new)) }
        ensures refused { IfOk result (λ r. IfErr r (RefusesAt (rules_of H.hash_of)
            (draft_of self.old.topology.now) (place_in self.old) line.now)) }
    {
        match self.stage {
            Stage::Settled => Ok(or_unlike(self.take_settled(line))),
            Stage::Head => Ok(or_unlike(self.take_head(alloc, line)?)),
            Stage::Row(left) => Ok(or_unlike(self.take_row(alloc, left, line)?)),
            Stage::Journal => self.take_entry(alloc, line),
        }
    }

    /// The audit of its journal and the lines of its tables, where the input may end here. Takes no memory.
    pub fn finish(self) -> Option<(Audit<'a, H>, Vec<u8>)>
        requires sound { IsSound H.hash_of self }
        ensures audit { IfSome result (λ p. p.0 ≡ self.entry.audit) }
        ensures tables { IfSome result (λ p. (draft_of self.entry.topology.now).print ≡ []
            → p.1.items ≡ []) }
        ensures text { IfSome result (λ p. text_of self.entry
            ≡ codes "settled" ++ 10 ∷ (p.1.items ++ journal_text (journal_of p.0))) }
        ensures place { IfSome result (λ p. place_in self.entry ≡ journal_line (journal_of p.0)) }
        ensures early { result ≡ None → (journal : List Entry)
            → place_in self.entry ≡ journal_line journal → ⊥ }
    {
        let OutputAudit {
            audit,
            stage,
            tables,
            ..
        } = self;
        match stage {
            Stage::Journal => Some((audit, tables)),
            _ => None,
        }
    }
}
