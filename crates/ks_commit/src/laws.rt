//! What holds between two transactions, and of every producer. Each law is the contract of a function that does nothing.
ghost use Rattle.ks_law_exactly_once.specs.Law.{OfHistories};
ghost use Rattle.ks_commit.specs.Alone.{IsStable, HasSeventeen, IsOfPast};

/// Between two transactions the stable offset of each partition is its end.
pub fn idle_is_stable()
    ensures { OfHistories IsStable }
{}

/// A cluster has the producers 0 to 16: any other is a new one.
pub fn has_seventeen()
    ensures { OfHistories HasSeventeen }
{}

/// No record is of a later epoch than its producer's.
pub fn records_are_past()
    ensures { OfHistories IsOfPast }
{}
