//! A history written out, in which others write while a worker builds: the laws' premises hold together.
ghost use Rattle.std.specs.Prelude.{◌≡◌, Some, true};
ghost use Rattle.ks_record.specs.Records.{Record as Rec};
ghost use Rattle.ks_record.specs.declared.assignment.Refused.TheVariants.{Fenced};
ghost use Rattle.ks_history.specs.declared.journal.Request.TheVariants.{Decide};
ghost use Rattle.ks_history.specs.Step.{refusal};
ghost use Rattle.ks_history.specs.History.{at, IsHistory, CommitsFaithfully};
ghost use Rattle.ks_history.specs.Touched.{touched};
ghost use Rattle.ks_law_exactly_once.specs.Example.{setup};
ghost use Rattle.ks_law_restore.specs.Example.{taker};
ghost use Rattle.ks_law_sharing.specs.Tasks.{HasSeen, IsActive};
ghost use Rattle.ks_law_commit.specs.Building.{IsBuilding};
ghost use Rattle.ks_law_commit.specs.Committing.{HoldsWork};
ghost use Rattle.ks_law_commit.specs.Example.{assigned, built, expired, contents};

/// A worker builds a transaction with its task's work, another comes, and the transaction could still be committed faithfully; then the
/// worker is expired, and its commit is refused.
pub fn zombie_built()
    ensures history { (rec : Rec) → IsHistory setup (built rec) }
    ensures building { (rec : Rec) → IsBuilding (at setup (assigned rec)) (at setup (built rec)) 0 1
        (contents rec) }
    ensures holds { (rec : Rec) → HoldsWork setup (at setup (built rec)) (contents rec) }
    ensures faithful { (rec : Rec) → CommitsFaithfully setup (at setup (built rec))
        (Decide 0 1 true) }
    ensures seen { (rec : Rec) → HasSeen setup (built rec) 0 1 7 }
    ensures active { (rec : Rec) → IsActive setup (built rec) 0 1 7 (taker rec) }
    ensures fenced { (rec : Rec) → refusal setup (at setup (expired rec)) (Decide 0 1 true)
        ≡ Some (Fenced 2) }
{}
