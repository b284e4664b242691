//! A history written out, with the task that makes it: the laws' premises hold together.
ghost use Rattle.ks_record.specs.Records.{Record as Rec};
ghost use Rattle.ks_history.specs.History.{at};
ghost use Rattle.ks_law_exactly_once.specs.Example.{setup, the_task, one_commit};
ghost use Rattle.ks_law_restore.specs.Views.{Stands, IsNext, IsFrozen, IsWork, AreEnds, fresh_view, committed_view, pending_work};
ghost use Rattle.ks_law_restore.specs.Commits.{OneCommit};
ghost use Rattle.ks_law_restore.specs.Example.{produced, rest, taker, work, ends};

/// A fresh task takes the one record, its work is committed, and it follows the journal at each stage.
pub fn one_commit_is_followed()
    ensures fresh { (rec : Rec) → Stands setup (produced rec) (fresh_view the_task) }
    ensures next { (rec : Rec) → IsNext setup (at setup (produced rec)) (fresh_view the_task) 0 0
        rec }
    ensures taken { (rec : Rec) → Stands setup (produced rec) (taker rec) }
    ensures frozen { (rec : Rec) → IsFrozen setup.plan (taker rec) (work rec) }
    ensures work { (rec : Rec) → IsWork setup (at setup (produced rec)) (work rec) }
    ensures one { (rec : Rec) → OneCommit setup (at setup (produced rec)) (rest rec)
        (pending_work (work rec)) }
    ensures ends { (rec : Rec) → AreEnds setup (at setup (one_commit rec)) (work rec) ends }
    ensures committed { (rec : Rec) → Stands setup (one_commit rec)
        (committed_view (taker rec) ends) }
{}
