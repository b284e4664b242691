//! Laws of the tests. Each law is the contract of a function that does nothing.
ghost use Rattle.ks_audit_entry.specs.Outcomes.{MeetsIsTested};

/// The test of a request's conditions says yes exactly where they hold.
pub fn meets_is_tested()
    ensures { MeetsIsTested }
{}
