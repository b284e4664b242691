//! What an audit's journal is made of. The law is the contract of a function that does nothing.
ghost use Rattle.ks_audit.specs.Inputs.{InputsAreRecords};

/// A legal journal whose produced records are input records at their places has produced the records of a job, each with a spelling, a time
/// in range, and at its place.
pub fn inputs_are_records()
    ensures { InputsAreRecords }
{}
