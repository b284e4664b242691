//! The top call: from the words to a run.
ghost use Rattle.std.specs.Prelude.{◌≡◌, ◌≢◌, ◌⊎◌, ◌<◌, ◌≤◌, ℕ, List, true, false, Some, None, IfSome, [], length, is_some};
ghost use Rattle.std.specs.Io.KnownBytes.{Appends, IsAtEnd};
ghost use Rattle.ks_edge.specs.Causes.{Rose};
ghost use Rattle.ks_hash.specs.Murmur3.{murmur3_of};
ghost use Rattle.ks_def_tasks.specs.Rules.{rules_of};
ghost use Rattle.ks_run_output.specs.Bytes.{AppendsFront};
ghost use Rattle.ks_run_output.specs.Texts.{bad_words_text, read_fault_text};
ghost use Rattle.ks_run_feed.specs.Wanted.{placing_of};
ghost use Rattle.ks_words.specs.Grammar.{words_of, command_of};
ghost use Rattle.ks_words.specs.Load.{load_text};
ghost use Rattle.ks_words.specs.Ranges.{HasRanges, IsWithin};
ghost use Rattle.ks_audit_verdict.specs.Answers.{IsAuditAnswer};
ghost use Rattle.ks_audit_verdict.specs.Texts.{yes_text};
ghost use Rattle.ks_run_verdict.specs.Audited.{AnswersYes, HoldsRun};
ghost use Rattle.ks_run_verdict.specs.Told.Wanted.{nothing};
ghost use Rattle.ks_run_verdict.specs.Answers.{IsRefused, IsBadAsk};
ghost use Rattle.ks_run_verdict.specs.Commands.{HasBadAsk, HasValidJob, IsRun, IsAuditStatus, IsRunStatus, IsStatusOf, IsJudgedBy, IsLoadJudged, is_audit, is_read_ahead, placing_by, job_bytes, wanted_of};
ghost use Rattle.ks_run_verdict.specs.Journals.{IsSettledRun, IsLateRun, IsCollidedRun, HasJournal, TookFront, IsUndrained, IsEmptyIf, IsWithoutCollision};

use crate::loading::TextSource;
use crate::runs::{Ended, run_asked, run_job};
use ks_edge::{Gate, Sink, Source};
use ks_hash::Murmur3;
use ks_iq::Ask;
use ks_record::Seq;
use ks_run_audit::audit_source;
use ks_run_output::{print_bad_words, write_output};
use ks_run_verdict::{BAD_WORDS, NO_MEMORY, WRITE_FAULT};
use ks_task_step::StepsBy;
use ks_words::{Command, Settings, load_job, read_words};
use std::alloc::Global;
use std::random::RandomSource;
use std::sync::Wait;
use std::thread::Threads;

// The same settings, but the journal isn't printed.
fn without_journal(settings: Settings) -> Settings
    requires { HasRanges settings }
    ensures ranges { HasRanges result }
    ensures placing { placing_of result ≡ placing_of settings }
    ensures journal { result.journal ≡ false }
    ensures stop { result.stop ≡ settings.stop }
{
    Settings {
        journal: false,
        ..settings
    }
}

// What is answered where the words say nothing.
fn refuse_words<K: Sink>(alloc: Global, out: &mut K) -> Ended
    ensures bad_words { result.status ≡ 1 → Appends (K.held out.old) (K.held out.new)
        bad_words_text }
    ensures write_fault { result.status ≡ 7 → Rose (K.faults out.old) (K.faults out.new)
        × AppendsFront (K.held out.old) (K.held out.new) bad_words_text }
    ensures written { (result.status ≡ 7 → ⊥) → K.faults out.new ≡ K.faults out.old }
    ensures memory { result.status ≡ 8 → out.new ≡ out.old }
    ensures forgotten { result.status ≡ 8 → result.journal ≡ [] }
    ensures only { (result.status ≡ 1) ⊎ (result.status ≡ 7) ⊎ (result.status ≡ 8) }
    ensures journal { result.journal ≡ [] }
{
    let journal = Seq::new(alloc);
    let Ok(text) = print_bad_words(alloc) else {
        return Ended {
            status: NO_MEMORY,
            journal,
        };
    };
    match write_output(out, &text) {
        Ok(()) => Ended {
            status: BAD_WORDS,
            journal,
        },
        Err(_) => Ended {
            status: WRITE_FAULT,
            journal,
        },
    }
}

// Runs the load job of so many orders.
#[tactic(auto, using(crate::proofs::LoadJob::load_in_time))]
fn run_load<R: Threads + Wait + Sync + RandomSource, K: Sink>(
    rt: &R,
    alloc: Global,
    orders: u32,
    settings: Settings,
    out: &mut K,
    gates: Vec<Box<dyn Gate + Send>>,
) -> Ended
    requires settings { HasRanges settings }
    requires gates { length gates.items ≡ 16 }
    requires some { 0 < orders }
    requires few { orders ≤ 150000 }
    ensures read_fault { result.status ≡ 6 → ⊥ }
    ensures words { result.status ≡ 1 → ⊥ }
    ensures asked { result.status ≡ 9 → ⊥ }
    ensures bad_job { result.status ≡ 2 → ((text : List ℕ)
        × IsRefused (Some (load_text orders)) text
        × Appends (K.held out.old) (K.held out.new) text)
        × IsUndrained result.journal
        × IsEmptyIf (is_some settings.stop) result.journal }
    ensures settled { result.status ≡ 0 → ((text : List ℕ)
        × IsSettledRun (rules_of murmur3_of) (placing_of settings) nothing
        (Some (load_text orders)) text result.journal
        × Appends (K.held out.old) (K.held out.new) text) }
    ensures late { result.status ≡ 3 → ((text : List ℕ)
        × IsLateRun (rules_of murmur3_of) (placing_of settings) nothing
        (Some (load_text orders)) text result.journal
        × Appends (K.held out.old) (K.held out.new) text) }
    ensures collision { result.status ≡ 5 → ((text : List ℕ)
        × IsCollidedRun (rules_of murmur3_of) (placing_of settings) nothing
        (Some (load_text orders)) text result.journal
        × Appends (K.held out.old) (K.held out.new) text) }
    ensures write_fault { result.status ≡ 7 → Rose (K.faults out.old) (K.faults out.new)
        × ((status : ℕ) × (text : List ℕ) × IsLoadJudged (rules_of murmur3_of) (placing_of settings)
        (is_some settings.stop) orders status text result.journal
        × AppendsFront (K.held out.old) (K.held out.new) text) }
    ensures journal { (result.status ≡ 8 → ⊥)
        → HasJournal (rules_of murmur3_of) (placing_of settings) (Some (load_text orders))
        result.journal }
    ensures complete { IsWithoutCollision (rules_of murmur3_of) (Some (load_text orders))
        result.journal
        → (Rose (K.faults out.old) (K.faults out.new) → ⊥) → (result.status ≡ 0)
        ⊎ (result.status ≡ 8) }
    ensures written { (result.status ≡ 7 → ⊥) → K.faults out.new ≡ K.faults out.old }
    ensures memory { result.status ≡ 8 → out.new ≡ out.old }
    ensures forgotten { result.status ≡ 8 → result.journal ≡ [] }
    ensures only { IsRunStatus result.status }
{
    let Ok(text) = load_job(alloc, orders) else {
        return Ended {
            status: NO_MEMORY,
            journal: Seq::new(alloc),
        };
    };
    let mut source = TextSource::new(text);
    let settings = without_journal(settings);
    run_job::<Murmur3, R, TextSource, K>(rt, alloc, &settings, &mut source, out, gates)
}

// Audits what the source holds.
fn audit_input<R: Threads + Sync, S: Source, K: Sink>(
    rt: &R,
    alloc: Global,
    input: &mut S,
    out: &mut K,
) -> Ended
    ensures status { IsAuditStatus result.status }
    ensures yes { result.status ≡ 0 → (S.faults input.new ≡ S.faults input.old)
        × IsAtEnd (S.left input.new)
        × HoldsRun (rules_of murmur3_of) (S.left input.old)
        × Appends (K.held out.old) (K.held out.new) yes_text }
    ensures answer { (result.status ≡ 7 → ⊥) → (result.status ≡ 8 → ⊥) → ((text : List ℕ)
        × IsAuditAnswer (rules_of murmur3_of) (S.left input.old) (S.left input.new)
        (S.faults input.old) (S.faults input.new) result.status text
        × Appends (K.held out.old) (K.held out.new) text) }
    ensures write_fault { result.status ≡ 7 → Rose (K.faults out.old) (K.faults out.new)
        × ((status : ℕ) × (text : List ℕ)
        × IsAuditAnswer (rules_of murmur3_of) (S.left input.old) (S.left input.new)
        (S.faults input.old) (S.faults input.new) status text
        × AppendsFront (K.held out.old) (K.held out.new) text) }
    ensures complete { AnswersYes (rules_of murmur3_of) (S.left input.old) result.status }
    ensures written { (result.status ≡ 7 → ⊥) → K.faults out.new ≡ K.faults out.old }
    ensures memory { result.status ≡ 8 → out.new ≡ out.old }
    ensures journal { result.journal ≡ [] }
{
    let journal = Seq::new(alloc);
    let Ok(answer) = audit_source::<StepsBy<Murmur3>, R, S>(rt, alloc, input) else {
        return Ended {
            status: NO_MEMORY,
            journal,
        };
    };
    match write_output(out, &answer.text) {
        Ok(()) => Ended {
            status: answer.status,
            journal,
        },
        Err(_) => Ended {
            status: WRITE_FAULT,
            journal,
        },
    }
}

fn is_audit(command: &Option<Command>) -> bool
    ensures { result ≡ is_audit command.now }
{
    match command {
        Some(Command::Audit) => true,
        Some(Command::Run(_) | Command::Load(_, _) | Command::Ask { .. }) | None => false,
    }
}

// Runs a command but `audit`, or refuses the words that name none.
fn run_command<R: Threads + Wait + Sync + RandomSource, S: Source + Send, K: Sink>(
    rt: &R,
    alloc: Global,
    command: Option<Command>,
    input: &mut S,
    out: &mut K,
    gates: Vec<Box<dyn Gate + Send>>,
) -> Ended
    requires gates { length gates.items ≡ 16 }
    requires within { IfSome command IsWithin }
    requires plain { is_audit command ≡ false }
    ensures bad_words { result.status ≡ 1 → (command ≡ None)
        × Appends (K.held out.old) (K.held out.new) bad_words_text
        × (result.journal ≡ []) }
    ensures good_words { (result.status ≡ 0) ⊎ (result.status ≡ 2) ⊎ (result.status ≡ 3)
        ⊎ (result.status ≡ 5) ⊎ (result.status ≡ 6) ⊎ (result.status ≡ 9)
        → command ≢ None }
    ensures read_fault { result.status ≡ 6 → IsRun command
        × Rose (S.faults input.old) (S.faults input.new)
        × TookFront (S.left input.old) (S.left input.new) result.journal
        × Appends (K.held out.old) (K.held out.new) read_fault_text
        × IsUndrained result.journal
        × IsEmptyIf (is_read_ahead command) result.journal }
    ensures bad_job { result.status ≡ 2 → (S.faults input.new ≡ S.faults input.old)
        × ((text : List ℕ) × IsRefused (job_bytes command (S.left input.old)) text
        × Appends (K.held out.old) (K.held out.new) text)
        × IsUndrained result.journal
        × IsEmptyIf (is_read_ahead command) result.journal }
    ensures settled { result.status ≡ 0 → (S.faults input.new ≡ S.faults input.old)
        × (IsRun command → IsAtEnd (S.left input.new))
        × ((text : List ℕ) × IsSettledRun (rules_of murmur3_of) (placing_by command)
        (wanted_of command)
        (job_bytes command (S.left input.old)) text result.journal
        × Appends (K.held out.old) (K.held out.new) text) }
    ensures late { result.status ≡ 3 → (S.faults input.new ≡ S.faults input.old)
        × (IsRun command → IsAtEnd (S.left input.new))
        × ((text : List ℕ) × IsLateRun (rules_of murmur3_of) (placing_by command)
        (wanted_of command)
        (job_bytes command (S.left input.old)) text result.journal
        × Appends (K.held out.old) (K.held out.new) text) }
    ensures collision { result.status ≡ 5 → (S.faults input.new ≡ S.faults input.old)
        × (IsRun command → IsAtEnd (S.left input.new))
        × ((text : List ℕ) × IsCollidedRun (rules_of murmur3_of) (placing_by command)
        (wanted_of command)
        (job_bytes command (S.left input.old)) text result.journal
        × Appends (K.held out.old) (K.held out.new) text) }
    ensures bad_ask { result.status ≡ 9 → (S.faults input.new ≡ S.faults input.old)
        × IsAtEnd (S.left input.new)
        × ((text : List ℕ) × IsBadAsk (wanted_of command) (job_bytes command (S.left input.old))
        text × Appends (K.held out.old) (K.held out.new) text)
        × IsUndrained result.journal }
    ensures write_fault { result.status ≡ 7 → Rose (K.faults out.old) (K.faults out.new)
        × ((status : ℕ) × (text : List ℕ)
        × IsJudgedBy command (rules_of murmur3_of) (S.left input.old) (S.left input.new)
        (S.faults input.old) (S.faults input.new) status text result.journal
        × AppendsFront (K.held out.old) (K.held out.new) text) }
    ensures journal { (result.status ≡ 8 → ⊥)
        → HasJournal (rules_of murmur3_of) (placing_by command)
        (job_bytes command (S.left input.old)) result.journal }
    ensures complete { HasValidJob command (S.left input.old) (S.faults input.old)
        (S.faults input.new)
        → IsWithoutCollision (rules_of murmur3_of) (job_bytes command (S.left input.old))
        result.journal
        → (Rose (K.faults out.old) (K.faults out.new) → ⊥)
        → (result.status ≡ 0) ⊎ (result.status ≡ 8) }
    ensures refused { HasBadAsk command (S.left input.old) (S.faults input.old)
        (S.faults input.new)
        → (Rose (K.faults out.old) (K.faults out.new) → ⊥)
        → (result.status ≡ 9) ⊎ (result.status ≡ 8) }

    // Only `run` and `ask` ask the source.
    ensures unasked { (IsRun command → ⊥) → input.new ≡ input.old }
    ensures written { (result.status ≡ 7 → ⊥) → K.faults out.new ≡ K.faults out.old }
    ensures memory { result.status ≡ 8 → out.new ≡ out.old }
    ensures forgotten { result.status ≡ 8 → result.journal ≡ [] }
    ensures only { IsStatusOf command result.status }
{
    match command {
        Some(Command::Run(settings)) => {
            run_job::<Murmur3, R, S, K>(rt, alloc, &settings, input, out, gates)
        }
        Some(Command::Load(orders, settings)) => {
            run_load::<R, K>(rt, alloc, orders, settings, out, gates)
        }
        Some(
            Command::Ask {
                node,
                key,
                start,
                settings,
            },
        ) => {
            let ask = Ask { node, key, start };
            run_asked::<Murmur3, R, S, K>(rt, alloc, &settings, ask, input, out, gates)
        }
        Some(Command::Audit) => unreachable!(),
        None => refuse_words(alloc, out),
    }
}

/// Runs the command that the words name, with Murmur3: `run` the job that the source holds, by `run_job`, `load N` the load job of N orders,
/// which asks no source, `ask NODE KEY` the job that the source holds, by `run_asked`; `audit` audits the output that the source holds
/// (`audit_source` of `ks_run_audit`). `--journal` has the journal's lines of `run` printed last. Words that aren't in the grammar have status 1: `bad words` is written, the source is as it was, and the journal is empty.
pub fn top<R: Threads + Wait + Sync + RandomSource, S: Source + Send, K: Sink>(
    rt: &R,
    alloc: Global,
    words: &[String],
    input: &mut S,
    out: &mut K,
    gates: Vec<Box<dyn Gate + Send>>,
) -> Ended
    requires { length gates.items ≡ 16 }
    ensures bad_words { result.status ≡ 1 → (command_of (words_of words.now) ≡ None)
        × Appends (K.held out.old) (K.held out.new) bad_words_text
        × (result.journal ≡ []) }
    ensures good_words { (result.status ≡ 0) ⊎ (result.status ≡ 2) ⊎ (result.status ≡ 3)
        ⊎ (result.status ≡ 5) ⊎ (result.status ≡ 6) ⊎ (result.status ≡ 9)
        → command_of (words_of words.now) ≢ None }
    ensures read_fault { is_audit (command_of (words_of words.now)) ≡ false
        → result.status ≡ 6 → IsRun (command_of (words_of words.now))
        × Rose (S.faults input.old) (S.faults input.new)
        × TookFront (S.left input.old) (S.left input.new) result.journal
        × Appends (K.held out.old) (K.held out.new) read_fault_text
        × IsUndrained result.journal
        × IsEmptyIf (is_read_ahead (command_of (words_of words.now))) result.journal }
    ensures bad_job { is_audit (command_of (words_of words.now)) ≡ false
        → result.status ≡ 2 → (S.faults input.new ≡ S.faults input.old)
        × ((text : List ℕ) × IsRefused (job_bytes (command_of (words_of words.now))
        (S.left input.old)) text
        × Appends (K.held out.old) (K.held out.new) text)
        × IsUndrained result.journal
        × IsEmptyIf (is_read_ahead (command_of (words_of words.now))) result.journal }
    ensures settled { is_audit (command_of (words_of words.now)) ≡ false
        → result.status ≡ 0 → (S.faults input.new ≡ S.faults input.old)
        × (IsRun (command_of (words_of words.now)) → IsAtEnd (S.left input.new))
        × ((text : List ℕ) × IsSettledRun (rules_of murmur3_of)
        (placing_by (command_of (words_of words.now)))
        (wanted_of (command_of (words_of words.now)))
        (job_bytes (command_of (words_of words.now)) (S.left input.old)) text result.journal
        × Appends (K.held out.old) (K.held out.new) text) }
    ensures late { result.status ≡ 3 → (S.faults input.new ≡ S.faults input.old)
        × (IsRun (command_of (words_of words.now)) → IsAtEnd (S.left input.new))
        × ((text : List ℕ) × IsLateRun (rules_of murmur3_of)
        (placing_by (command_of (words_of words.now)))
        (wanted_of (command_of (words_of words.now)))
        (job_bytes (command_of (words_of words.now)) (S.left input.old)) text result.journal
        × Appends (K.held out.old) (K.held out.new) text) }
    ensures collision { result.status ≡ 5 → (S.faults input.new ≡ S.faults input.old)
        × (IsRun (command_of (words_of words.now)) → IsAtEnd (S.left input.new))
        × ((text : List ℕ) × IsCollidedRun (rules_of murmur3_of)
        (placing_by (command_of (words_of words.now)))
        (wanted_of (command_of (words_of words.now)))
        (job_bytes (command_of (words_of words.now)) (S.left input.old)) text result.journal
        × Appends (K.held out.old) (K.held out.new) text) }
    ensures bad_ask { result.status ≡ 9 → (S.faults input.new ≡ S.faults input.old)
        × IsAtEnd (S.left input.new)
        × ((text : List ℕ) × IsBadAsk (wanted_of (command_of (words_of words.now)))
        (job_bytes (command_of (words_of words.now)) (S.left input.old)) text
        × Appends (K.held out.old) (K.held out.new) text)
        × IsUndrained result.journal }
    ensures write_fault { is_audit (command_of (words_of words.now)) ≡ false
        → result.status ≡ 7 → Rose (K.faults out.old) (K.faults out.new)
        × ((status : ℕ) × (text : List ℕ)
        × IsJudgedBy (command_of (words_of words.now)) (rules_of murmur3_of) (S.left input.old)
        (S.left input.new) (S.faults input.old) (S.faults input.new) status text result.journal
        × AppendsFront (K.held out.old) (K.held out.new) text) }
    ensures journal { (result.status ≡ 8 → ⊥)
        → HasJournal (rules_of murmur3_of) (placing_by (command_of (words_of words.now)))
        (job_bytes (command_of (words_of words.now)) (S.left input.old)) result.journal }
    ensures complete { HasValidJob (command_of (words_of words.now)) (S.left input.old)
        (S.faults input.old) (S.faults input.new)
        → IsWithoutCollision (rules_of murmur3_of)
        (job_bytes (command_of (words_of words.now)) (S.left input.old)) result.journal
        → (Rose (K.faults out.old) (K.faults out.new) → ⊥)
        → (result.status ≡ 0) ⊎ (result.status ≡ 8) }

    // A question that the job has no answer to is refused.
    ensures refused { HasBadAsk (command_of (words_of words.now)) (S.left input.old)
        (S.faults input.old) (S.faults input.new)
        → (Rose (K.faults out.old) (K.faults out.new) → ⊥)
        → (result.status ≡ 9) ⊎ (result.status ≡ 8) }

    // Only `run` and `ask` ask the source for a job.
    ensures unasked { is_audit (command_of (words_of words.now)) ≡ false
        → (IsRun (command_of (words_of words.now)) → ⊥) → input.new ≡ input.old }
    ensures written { (result.status ≡ 7 → ⊥) → K.faults out.new ≡ K.faults out.old }
    ensures memory { result.status ≡ 8 → out.new ≡ out.old }
    ensures forgotten { result.status ≡ 8 → result.journal ≡ [] }

    // Each command has statuses of its own, and comes to no other.
    ensures only { IsStatusOf (command_of (words_of words.now)) result.status }

    // An audit keeps no journal, and answers `yes`, a fault of its input, or a status of devices and memory.
    ensures audit { is_audit (command_of (words_of words.now)) ≡ true
        → (result.journal ≡ []) × IsAuditStatus result.status }

    // Its `yes` says that the source held a topology line, and behind it what a settled run of that topology prints with its journal.
    ensures audited { is_audit (command_of (words_of words.now)) ≡ true
        → result.status ≡ 0 → (S.faults input.new ≡ S.faults input.old)
        × IsAtEnd (S.left input.new)
        × HoldsRun (rules_of murmur3_of) (S.left input.old)
        × Appends (K.held out.old) (K.held out.new) yes_text }

    // Each of its statuses comes with its text, for its reason; where the output failed, the front of such a text was written.
    ensures audit_answer { is_audit (command_of (words_of words.now)) ≡ true
        → (result.status ≡ 7 → ⊥) → (result.status ≡ 8 → ⊥) → ((text : List ℕ)
        × IsAuditAnswer (rules_of murmur3_of) (S.left input.old) (S.left input.new)
        (S.faults input.old) (S.faults input.new) result.status text
        × Appends (K.held out.old) (K.held out.new) text) }
    ensures audit_write_fault { is_audit (command_of (words_of words.now)) ≡ true
        → result.status ≡ 7 → Rose (K.faults out.old) (K.faults out.new)
        × ((status : ℕ) × (text : List ℕ)
        × IsAuditAnswer (rules_of murmur3_of) (S.left input.old) (S.left input.new)
        (S.faults input.old) (S.faults input.new) status text
        × AppendsFront (K.held out.old) (K.held out.new) text) }

    // Where the source tells that it holds such an output, and no device or memory fails, it is `yes`.
    ensures audit_complete { is_audit (command_of (words_of words.now)) ≡ true
        → AnswersYes (rules_of murmur3_of) (S.left input.old) result.status }
{
    let Ok(command) = read_words(alloc, words) else {
        return Ended {
            status: NO_MEMORY,
            journal: Seq::new(alloc),
        };
    };
    if is_audit(&command) {
        return audit_input::<R, S, K>(rt, alloc, input, out);
    }
    run_command::<R, S, K>(rt, alloc, command, input, out, gates)
}
