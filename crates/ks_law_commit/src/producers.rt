//! What a worker remembers of its producer, from one commit to the next. Each law is the contract of a function that does nothing.
ghost use Rattle.ks_law_commit.specs.Producers.{NothingIsRemembered, RememberedStays, CountsStay};
ghost use Rattle.ks_law_commit.specs.Producers.{InitIsRemembered, DecisionIsRemembered, RefusalIsRemembered};

/// A worker that remembers nothing is right in every history.
pub fn nothing_is_remembered()
    ensures { NothingIsRemembered }
{}

/// What is remembered stays right whatever is written.
pub fn remembered_stays()
    ensures { RememberedStays }
{}

/// So do the counts alone.
pub fn counts_stay()
    ensures { CountsStay }
{}

/// After an accepted `init` the new epoch is remembered, with no record sent.
pub fn init_is_remembered()
    ensures { InitIsRemembered }
{}

/// After an accepted decision nothing is undecided, and the counts are those before it.
pub fn decision_is_remembered()
    ensures { DecisionIsRemembered }
{}

/// So it is after a decision that was refused otherwise than by fencing.
pub fn refusal_is_remembered()
    ensures { RefusalIsRemembered }
{}
