//! What a ledger tells of a journal. Each law is the contract of a function that does nothing.
ghost use Rattle.ks_audit_ledger.specs.Ledgers.{LedgerStarts, AccountStays, LedgerStays, DecisionIsTold};
ghost use Rattle.ks_audit_ledger.specs.Offsets.{OffsetsStay};
ghost use Rattle.ks_audit_ledger.specs.Kept.{TasksStay};

/// Blank accounts tell the empty journal.
pub fn ledger_starts()
    ensures { LedgerStarts }
{}

/// An account tells the journal with one entry more, once the entry is noted.
pub fn account_stays()
    ensures { AccountStays }
{}

/// So do all accounts.
pub fn ledger_stays()
    ensures { LedgerStays }
{}

/// A decision is accepted exactly where the account is open and the epoch is its own.
pub fn decision_is_told()
    ensures { DecisionIsTold }
{}

/// An account tells where the records stand that were appended: each append was answered with the offset of its first.
pub fn offsets_stay()
    ensures { OffsetsStay }
{}

/// An account names tasks of the cluster alone, since the conditions of each entry held.
pub fn tasks_stay()
    ensures { TasksStay }
{}
