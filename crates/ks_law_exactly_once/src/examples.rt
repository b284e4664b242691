//! Histories written out: what the definitions say of them is computed.
ghost use Rattle.std.specs.Prelude.{◌≡◌, ℕ, List, [], ◌∷◌, None, Some, true, false, take};
ghost use Rattle.ks_record.specs.Records.{Record as Rec};
ghost use Rattle.ks_record.specs.declared.assignment.Refused.TheVariants.{Unstable};
ghost use Rattle.ks_history.specs.Machine.{IsNetwork};
ghost use Rattle.ks_history.specs.History.{at, IsHistory};
ghost use Rattle.ks_history.specs.Reads.{fetched, committed_refusal, committed_offsets, ends_of};
ghost use Rattle.ks_history.specs.Replay.{replay, run_of};
ghost use Rattle.ks_law_exactly_once.specs.Example.{setup, one_commit, zombie, input, changelog, the_task, told_after};

/// One commit: a history that meets the premises of the history's law, with its replay and what the cluster tells at each
/// stage. The offset is committed by the decision, and the marker is written after it.
pub fn one_commit_is_history()
    ensures network { IsNetwork setup.plan }
    ensures history { (rec : Rec) → IsHistory setup (one_commit rec) }
    ensures replay { (rec : Rec) → replay setup (one_commit rec) ≡ (None, input) ∷ [] }
    ensures taken { (rec : Rec) → (run_of setup (one_commit rec)).waiting None input ≡ [] }
    ensures past { (rec : Rec) → (run_of setup (one_commit rec)).given (Some the_task) changelog
        ≡ rec ∷ [] }
    ensures produced { (rec : Rec) → told_after 1 (one_commit rec) ≡ (0, 1, 0) }
    ensures begun { (rec : Rec) → told_after 7 (one_commit rec) ≡ (0, 1, 1) }
    ensures decided { (rec : Rec) → told_after 8 (one_commit rec) ≡ (1, 1, 1) }
    ensures marked { (rec : Rec) → told_after 9 (one_commit rec) ≡ (1, 1, 0) }
{}

/// A zombie: worker 0 is expired before it decides, so that its commit is refused and nothing of it is read.
pub fn zombie_is_history()
    ensures history { (rec : Rec) → IsHistory setup (zombie rec) }
    ensures unstable { (rec : Rec) → committed_refusal (at setup (take 10 (zombie rec))) 1 2
        the_task ≡ Some (Unstable 0) }
    ensures answered { (rec : Rec) → committed_refusal (at setup (take 14 (zombie rec))) 1 3
        the_task ≡ None }
    ensures committed { (rec : Rec) → committed_offsets setup (at setup (take 14 (zombie rec)))
        the_task ≡ (0, 0) ∷ [] }
    ensures fetched { (rec : Rec) → fetched (at setup (take 14 (zombie rec))) changelog 0 10
        ≡ ([], 2) }
    ensures ends { (rec : Rec) → ends_of (at setup (take 14 (zombie rec))) (changelog ∷ []) ≡ 2
        ∷ [] }
    ensures replay { (rec : Rec) → replay setup (zombie rec) ≡ [] }
{}
