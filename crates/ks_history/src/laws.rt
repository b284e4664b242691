//! What holds of every journal. Each law is the contract of a function that does nothing.
ghost use Rattle.std.specs.Prelude.{◌≡◌, ℕ, ◌+◌, ◌≤◌, List, [], ◌∷◌, ◌++◌, length};
ghost use Rattle.ks_history.specs.declared.journal.Entry.{Entry};
ghost use Rattle.ks_history.specs.declared.partition.Slot.{Slot};
ghost use Rattle.ks_history.specs.State.{Setup};
ghost use Rattle.ks_history.specs.Step.{after, refusal};
ghost use Rattle.ks_history.specs.Count.{records_by, records_in};
ghost use Rattle.ks_history.specs.Partition.{stable};
ghost use Rattle.ks_history.specs.History.{at, IsHistory, IsStep, IsFaithfulEntry, IsPrefix};
ghost use Rattle.ks_history.specs.Touched.{TouchedByTheLast, UntouchedStays};

/// A journal goes on by one entry.
pub fn one_more()
    ensures state { (setup : Setup) (journal : List Entry) (entry : Entry)
        → at setup (journal ++ entry ∷ []) ≡ after setup (at setup journal) entry.request }
    ensures history { (setup : Setup) (journal : List Entry) (entry : Entry)
        → IsHistory setup journal → IsStep setup (at setup journal) entry
        → IsFaithfulEntry setup (at setup journal) entry → IsHistory setup (journal ++ entry ∷ []) }
    ensures records { (setup : Setup) (journal : List Entry) (entry : Entry)
        → records_in setup (journal ++ entry ∷ []) ≡ records_in setup journal
        + records_by entry.request (refusal setup (at setup journal) entry.request) }
{}

/// A prefix of a history is a history: what is one now was one at each earlier moment.
pub fn earlier()
    ensures { (setup : Setup) (front whole : List Entry) → IsPrefix front whole
        → IsHistory setup whole → IsHistory setup front }
{}

/// The stable offset is at most the end.
pub fn stable_in()
    ensures { (slots : List Slot) → stable slots ≤ length slots }
{}

/// An epoch and the generation are at most the journal's length, since an entry raises each by at most 1.
pub fn few()
    ensures epochs { (setup : Setup) (journal : List Entry) (w : ℕ)
        → ((at setup journal).producer w).epoch ≤ length journal }
    ensures generation { (setup : Setup) (journal : List Entry) → (at setup journal).generation
        ≤ length journal }
{}

/// How far a journal touches a worker's transaction: up to the last entry by which the worker began, filled or decided one; entries that
/// touch nothing leave that as it was.
#[tactic(auto, using(crate::proofs::Touching::touched_by_the_last, crate::proofs::Touching::untouched_stays))]
pub fn touched_is_the_last()
    ensures last { TouchedByTheLast }
    ensures others { UntouchedStays }
{}
