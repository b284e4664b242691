//! A run of a job.
ghost use Rattle.std.specs.Prelude.{◌≡◌, ◌⊎◌, ℕ, List, [], IfSome, Some, length, is_some};
ghost use Rattle.std.specs.Io.KnownBytes.{Appends, IsAtEnd};
ghost use Rattle.ks_edge.specs.Causes.{Rose};
ghost use Rattle.ks_def_tasks.specs.Rules.{rules_of};
ghost use Rattle.ks_run_output.specs.Bytes.{AppendsFront};
ghost use Rattle.ks_run_output.specs.Texts.{read_fault_text};
ghost use Rattle.ks_run_feed.specs.Wanted.{placing_of};
ghost use Rattle.ks_words.specs.Ranges.{HasRanges};
ghost use Rattle.ks_iq.specs.declared.ask.Ask.{Ask};
ghost use Rattle.ks_run_verdict.specs.Journals.{IsSettledRun, IsLateRun, IsCollidedRun, HasJournal, TookFront, IsUndrained, IsEmptyIf, IsInTime, IsGoodAsk, IsRefusing, IsWithoutCollision};
ghost use Rattle.ks_run_verdict.specs.Told.{lines_if, wanted_in};
ghost use Rattle.ks_run_verdict.specs.Told.Wanted.{answers};
ghost use Rattle.ks_run_verdict.specs.Answers.{IsRefused, IsBadAsk, IsJudged};
ghost use Rattle.ks_run_verdict.specs.Commands.{IsRunStatus, IsAskStatus};

use crate::outcome::judge_job;
use ks_edge::{Gate, Sink, Source};
use ks_hash::Hash128;
use ks_history::Journal;
use ks_iq::Ask;
use ks_record::Seq;
use ks_run_output::write_output;
use ks_run_verdict::{NO_MEMORY, WRITE_FAULT};
use ks_run_workers::RunWorkers;
use ks_task_processing::Processing;
use ks_task_step::StepsBy;
use ks_words::Settings;
use std::alloc::Global;
use std::random::RandomSource;
use std::sync::Wait;
use std::thread::Threads;

/// How a run ended, and the journal that it kept; that is empty where no cluster was made.
#[derive(Drop)]
pub struct Ended {
    pub status: u8,
    pub journal: Journal,
}

/// Runs the job that the source holds, writes its tables to the sink, and answers a status and the journal:
///
/// | Status | Comes | Written | Journal |
/// |---|---|---|---|
/// | 0 | the source did not fail and was read to its end, its bytes are a job, no two rows of a left key of a join on a foreign key have one hash, and nothing was late | `settled`, and the tables in the order of `print`: the topology's query over the job's records | has produced the job's records, is settled, and its replay is one uncrashed run |
/// | 2 | the bytes have a faulty line, or a topology with a fault, before the source failed | `bad job line L: FAULT`, the first such line | has produced a front of the records before it, and isn't drained |
/// | 3 | as 0, but so many pairs of a record and a window were late, which comes only where the records are not within grace | `late N`, and the tables as the changelogs keep them: each is the query's but those of windowed counts, which lack exactly the late pairs | as of 0 |
/// | 5 | as 0, but two decided records of a left key in one partition have rows that differ and one hash, whatever was late | `collision NODE KEY FIRST SECOND`: the join, the key, and the offsets of the first two such records | as of 0 |
/// | 6 | the source failed before that | `read fault` | as of 2 |
/// | 7 | the sink failed, in place of each of these | a front of what they write | as theirs |
/// | 8 | there was no memory, in a worker or elsewhere | nothing | empty |
///
/// So a job whose records are within grace is answered by its query, unless a device fails, memory runs out, or rows of one key have one hash.
///
/// The source is read until the topology is whole. Then each record is produced as soon as its line is, while the workers run, each in a thread of its own: `threads` of them for each of so many `instances`,
/// with `standbys` of each task. They take and commit the records, and what they leave the drain does (`ks_run_workers`, `ks_settle`); where a line is faulty or the source fails there is none. With `stop` the
/// source is read whole first. The worker w is told its acts by the gate w, which begins for it with `chaos` and `interval`, and has the turns of `stop`; gates that are left over are dropped unasked. The
/// journal is empty where the topology isn't known, or is refused, and with `stop` under statuses 2 and 6. With `journal` the journal's lines come last under statuses 0, 3 and 5 (`ks_journal`). A line is whole
/// at its line feed, at its byte 65,537, or at the end of the input; the source isn't asked again once a faulty line is whole, nor after its end. The text is built whole before its first byte is written.
pub fn run_job<
    H: Hash128 + Send + Sync,
    R: Threads + Wait + Sync + RandomSource,
    S: Source + Send,
    K: Sink,
>(
    rt: &R,
    alloc: Global,
    settings: &Settings,
    input: &mut S,
    out: &mut K,
    gates: Vec<Box<dyn Gate + Send>>,
) -> Ended
    requires gates { length gates.items ≡ 16 }
    requires settings { HasRanges settings.now }

    // What was written is known from the status, and so is why it came.
    ensures read_fault { result.status ≡ 6 → Rose (S.faults input.old) (S.faults input.new)
        × TookFront (S.left input.old) (S.left input.new) result.journal
        × Appends (K.held out.old) (K.held out.new) read_fault_text
        × IsUndrained result.journal
        × IsEmptyIf (is_some settings.now.stop) result.journal }
    ensures bad_job { result.status ≡ 2 → (S.faults input.new ≡ S.faults input.old)
        × ((text : List ℕ) × IsRefused (S.left input.old) text
        × Appends (K.held out.old) (K.held out.new) text)
        × IsUndrained result.journal
        × IsEmptyIf (is_some settings.now.stop) result.journal }
    ensures settled { result.status ≡ 0 → (S.faults input.new ≡ S.faults input.old)
        × IsAtEnd (S.left input.new)
        × ((text : List ℕ) × IsSettledRun (rules_of H.hash_of) (placing_of settings.now)
        (lines_if settings.now.journal) (S.left input.old) text result.journal
        × Appends (K.held out.old) (K.held out.new) text) }
    ensures late { result.status ≡ 3 → (S.faults input.new ≡ S.faults input.old)
        × IsAtEnd (S.left input.new)
        × ((text : List ℕ) × IsLateRun (rules_of H.hash_of) (placing_of settings.now)
        (lines_if settings.now.journal) (S.left input.old) text result.journal
        × Appends (K.held out.old) (K.held out.new) text) }
    ensures collision { result.status ≡ 5 → (S.faults input.new ≡ S.faults input.old)
        × IsAtEnd (S.left input.new)
        × ((text : List ℕ) × IsCollidedRun (rules_of H.hash_of) (placing_of settings.now)
        (lines_if settings.now.journal) (S.left input.old) text result.journal
        × Appends (K.held out.old) (K.held out.new) text) }
    ensures write_fault { result.status ≡ 7 → Rose (K.faults out.old) (K.faults out.new)
        × ((status : ℕ) × (text : List ℕ)
        × IsJudged (rules_of H.hash_of) (placing_of settings.now) (lines_if settings.now.journal)
        (is_some settings.now.stop) (S.left input.old) (S.left input.new) (S.faults input.old)
        (S.faults input.new) status text result.journal
        × AppendsFront (K.held out.old) (K.held out.new) text) }

    // The journal is legal and faithful, its assignments are good, and what it has produced is a front of the job's records.
    ensures journal { (result.status ≡ 8 → ⊥)
        → HasJournal (rules_of H.hash_of) (placing_of settings.now) (S.left input.old)
        result.journal }

    // A valid job whose records are within grace and whose rows don't collide is answered by its query.
    ensures complete { IsInTime (S.left input.old)
        → IsWithoutCollision (rules_of H.hash_of) (S.left input.old) result.journal
        → (Rose (S.faults input.old) (S.faults input.new) → ⊥)
        → (Rose (K.faults out.old) (K.faults out.new) → ⊥)
        → (result.status ≡ 0) ⊎ (result.status ≡ 8) }

    // At every other status the sink did not fail.
    ensures written { (result.status ≡ 7 → ⊥) → K.faults out.new ≡ K.faults out.old }

    // On want of memory nothing was written, and no journal is handed back.
    ensures memory { result.status ≡ 8 → out.new ≡ out.old }
    ensures forgotten { result.status ≡ 8 → result.journal ≡ [] }
    ensures only { IsRunStatus result.status }
    ensures words { result.status ≡ 1 → ⊥ }
    ensures asked { result.status ≡ 9 → ⊥ }
{
    let crew = RunWorkers {
        settings: *settings,
        gates,
        question: None,
    };
    run_crew::<StepsBy<H>, R, S, K>(rt, alloc, input, out, crew)
}

/// The same, and a question is asked meanwhile and at the end: behind the tables stands a line for each of its 17 answers, in place of the
/// journal's. Where the job has no such store as is asked for the status is 9: `bad ask 30 UnknownStore` or `bad ask 31 WrongStart` is
/// written, and nothing is drained.
pub fn run_asked<
    H: Hash128 + Send + Sync,
    R: Threads + Wait + Sync + RandomSource,
    S: Source + Send,
    K: Sink,
>(
    rt: &R,
    alloc: Global,
    settings: &Settings,
    ask: Ask,
    input: &mut S,
    out: &mut K,
    gates: Vec<Box<dyn Gate + Send>>,
) -> Ended
    requires gates { length gates.items ≡ 16 }
    requires settings { HasRanges settings.now }
    // What was written is known from the status, and so is why it came.
    ensures read_fault { result.status ≡ 6 → Rose (S.faults input.old) (S.faults input.new)
        × TookFront (S.left input.old) (S.left input.new) result.journal
        × Appends (K.held out.old) (K.held out.new) read_fault_text
        × IsUndrained result.journal
        × IsEmptyIf (is_some settings.now.stop) result.journal }
    ensures bad_job { result.status ≡ 2 → (S.faults input.new ≡ S.faults input.old)
        × ((text : List ℕ) × IsRefused (S.left input.old) text
        × Appends (K.held out.old) (K.held out.new) text)
        × IsUndrained result.journal
        × IsEmptyIf (is_some settings.now.stop) result.journal }
    ensures settled { result.status ≡ 0 → (S.faults input.new ≡ S.faults input.old)
        × IsAtEnd (S.left input.new)
        × ((text : List ℕ) × IsSettledRun (rules_of H.hash_of) (placing_of settings.now)
        (answers ask) (S.left input.old) text result.journal
        × Appends (K.held out.old) (K.held out.new) text) }
    ensures late { result.status ≡ 3 → (S.faults input.new ≡ S.faults input.old)
        × IsAtEnd (S.left input.new)
        × ((text : List ℕ) × IsLateRun (rules_of H.hash_of) (placing_of settings.now)
        (answers ask) (S.left input.old) text result.journal
        × Appends (K.held out.old) (K.held out.new) text) }
    ensures collision { result.status ≡ 5 → (S.faults input.new ≡ S.faults input.old)
        × IsAtEnd (S.left input.new)
        × ((text : List ℕ) × IsCollidedRun (rules_of H.hash_of) (placing_of settings.now)
        (answers ask) (S.left input.old) text result.journal
        × Appends (K.held out.old) (K.held out.new) text) }
    ensures bad_ask { result.status ≡ 9 → (S.faults input.new ≡ S.faults input.old)
        × IsAtEnd (S.left input.new)
        × ((text : List ℕ) × IsBadAsk (answers ask) (S.left input.old) text
        × Appends (K.held out.old) (K.held out.new) text) × IsUndrained result.journal }
    ensures write_fault { result.status ≡ 7 → Rose (K.faults out.old) (K.faults out.new)
        × ((status : ℕ) × (text : List ℕ)
        × IsJudged (rules_of H.hash_of) (placing_of settings.now) (answers ask)
        (is_some settings.now.stop) (S.left input.old) (S.left input.new) (S.faults input.old)
        (S.faults input.new) status text result.journal
        × AppendsFront (K.held out.old) (K.held out.new) text) }

    // The journal is legal and faithful, its assignments are good, and what it has produced is a front of the job's records.
    ensures journal { (result.status ≡ 8 → ⊥)
        → HasJournal (rules_of H.hash_of) (placing_of settings.now) (S.left input.old)
        result.journal }

    // A valid job whose records are within grace and whose rows don't collide is answered by its query.
    ensures complete { IsInTime (S.left input.old) → IsGoodAsk (S.left input.old) ask
        → IsWithoutCollision (rules_of H.hash_of) (S.left input.old) result.journal
        → (Rose (S.faults input.old) (S.faults input.new) → ⊥)
        → (Rose (K.faults out.old) (K.faults out.new) → ⊥)
        → (result.status ≡ 0) ⊎ (result.status ≡ 8) }

    // A valid job that has no answer to the question refuses it, whatever its records are.
    ensures refused { IsRefusing (S.left input.old) ask
        → (Rose (S.faults input.old) (S.faults input.new) → ⊥)
        → (Rose (K.faults out.old) (K.faults out.new) → ⊥)
        → (result.status ≡ 9) ⊎ (result.status ≡ 8) }

    // At every other status the sink did not fail.
    ensures written { (result.status ≡ 7 → ⊥) → K.faults out.new ≡ K.faults out.old }

    // On want of memory nothing was written, and no journal is handed back.
    ensures memory { result.status ≡ 8 → out.new ≡ out.old }
    ensures forgotten { result.status ≡ 8 → result.journal ≡ [] }
    ensures only { IsAskStatus result.status }
    ensures words { result.status ≡ 1 → ⊥ }
{
    let settings = Settings {
        journal: false,
        ..*settings
    };
    let crew = RunWorkers {
        settings,
        gates,
        question: Some(ask),
    };
    run_crew::<StepsBy<H>, R, S, K>(rt, alloc, input, out, crew)
}

// Runs the job by a crew, and writes what it answers.
fn run_crew<
    H: Processing + Send + Sync,
    R: Threads + Wait + Sync + RandomSource,
    S: Source + Send,
    K: Sink,
>(
    rt: &R,
    alloc: Global,
    input: &mut S,
    out: &mut K,
    crew: RunWorkers<Box<dyn Gate + Send>>,
) -> Ended
    requires gates { length crew.gates.items ≡ 16 }
    requires settings { HasRanges crew.settings }
    // What was written is known from the status, and so is why it came.
    ensures read_fault { result.status ≡ 6 → Rose (S.faults input.old) (S.faults input.new)
        × TookFront (S.left input.old) (S.left input.new) result.journal
        × Appends (K.held out.old) (K.held out.new) read_fault_text
        × IsUndrained result.journal
        × IsEmptyIf (is_some crew.settings.stop) result.journal }
    ensures bad_job { result.status ≡ 2 → (S.faults input.new ≡ S.faults input.old)
        × ((text : List ℕ) × IsRefused (S.left input.old) text
        × Appends (K.held out.old) (K.held out.new) text)
        × IsUndrained result.journal
        × IsEmptyIf (is_some crew.settings.stop) result.journal }
    ensures settled { result.status ≡ 0 → (S.faults input.new ≡ S.faults input.old)
        × IsAtEnd (S.left input.new)
        × ((text : List ℕ) × IsSettledRun (rules_of H.hash_of) (placing_of crew.settings)
        (wanted_in crew.settings.journal crew.question) (S.left input.old) text result.journal
        × Appends (K.held out.old) (K.held out.new) text) }
    ensures late { result.status ≡ 3 → (S.faults input.new ≡ S.faults input.old)
        × IsAtEnd (S.left input.new)
        × ((text : List ℕ) × IsLateRun (rules_of H.hash_of) (placing_of crew.settings)
        (wanted_in crew.settings.journal crew.question) (S.left input.old) text result.journal
        × Appends (K.held out.old) (K.held out.new) text) }
    ensures collision { result.status ≡ 5 → (S.faults input.new ≡ S.faults input.old)
        × IsAtEnd (S.left input.new)
        × ((text : List ℕ) × IsCollidedRun (rules_of H.hash_of) (placing_of crew.settings)
        (wanted_in crew.settings.journal crew.question) (S.left input.old) text result.journal
        × Appends (K.held out.old) (K.held out.new) text) }
    ensures bad_ask { result.status ≡ 9 → (S.faults input.new ≡ S.faults input.old)
        × IsAtEnd (S.left input.new)
        × ((text : List ℕ) × IsBadAsk (wanted_in crew.settings.journal crew.question)
        (S.left input.old) text
        × Appends (K.held out.old) (K.held out.new) text) × IsUndrained result.journal }
    ensures write_fault { result.status ≡ 7 → Rose (K.faults out.old) (K.faults out.new)
        × ((status : ℕ) × (text : List ℕ)
        × IsJudged (rules_of H.hash_of) (placing_of crew.settings)
        (wanted_in crew.settings.journal crew.question)
        (is_some crew.settings.stop) (S.left input.old) (S.left input.new) (S.faults input.old)
        (S.faults input.new) status text result.journal
        × AppendsFront (K.held out.old) (K.held out.new) text) }

    // The journal is legal and faithful, its assignments are good, and what it has produced is a front of the job's records.
    ensures journal { (result.status ≡ 8 → ⊥)
        → HasJournal (rules_of H.hash_of) (placing_of crew.settings) (S.left input.old)
        result.journal }

    // A valid job whose records are within grace and whose rows don't collide is answered by its query.
    ensures complete { IsInTime (S.left input.old)
        → IfSome crew.question (IsGoodAsk (S.left input.old))
        → IsWithoutCollision (rules_of H.hash_of) (S.left input.old) result.journal
        → (Rose (S.faults input.old) (S.faults input.new) → ⊥)
        → (Rose (K.faults out.old) (K.faults out.new) → ⊥)
        → (result.status ≡ 0) ⊎ (result.status ≡ 8) }

    // A valid job that has no answer to the question refuses it, whatever its records are.
    ensures refused { (ask : Ask) → crew.question ≡ Some ask → IsRefusing (S.left input.old) ask
        → (Rose (S.faults input.old) (S.faults input.new) → ⊥)
        → (Rose (K.faults out.old) (K.faults out.new) → ⊥)
        → (result.status ≡ 9) ⊎ (result.status ≡ 8) }

    // At every other status the sink did not fail.
    ensures written { (result.status ≡ 7 → ⊥) → K.faults out.new ≡ K.faults out.old }

    // On want of memory nothing was written, and no journal is handed back.
    ensures memory { result.status ≡ 8 → out.new ≡ out.old }
    ensures forgotten { result.status ≡ 8 → result.journal ≡ [] }
    ensures only { IsAskStatus result.status }
    ensures words { result.status ≡ 1 → ⊥ }
{
    let Ok(answer) = judge_job::<H, R, S>(rt, alloc, input, crew) else {
        return Ended {
            status: NO_MEMORY,
            journal: Seq::new(alloc),
        };
    };
    match write_output(out, &answer.text) {
        Ok(()) => Ended {
            status: answer.status,
            journal: answer.journal,
        },
        Err(_) => Ended {
            status: WRITE_FAULT,
            journal: answer.journal,
        },
    }
}
