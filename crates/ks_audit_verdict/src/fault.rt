//! Why an output is refused.
ghost use Rattle.std.specs.Prelude.{◌≡◌};
ghost use Rattle.ks_audit_verdict.specs.Texts.{journal_fault};

use ks_audit::AuditFault;
use ks_record::{Blob, TaskId};

/// What shows that an output is not that of a settled run with its journal.
#[derive(Drop)]
pub enum OutputFault {
    /// The line or the input is too long.
    TooLong,
    /// The line isn't of the form that stands at its place.
    NotJournal,
    /// A condition of its request is false, a record is no input record at its place, or the reply is not that of the step.
    NotLegal,
    /// A commit is accepted and not faithful; the first task, in order of tasks, for which it isn't.
    NotFaithful { task: TaskId },
    /// So many partitions aren't read to their ends, and so many producers have something undecided, or markers that wait.
    NotSettled { lags: usize, pending: u32 },
    /// Two rows of a left key of a join on a foreign key have one hash.
    Collision,
    /// So many pairs of a record and a window were late.
    Late { late: u64 },
    /// The lines of a table are not those of its changelog's fold; the first such.
    WrongTable { name: Blob },
}

/// The fault of a line of the journal, as one of the output.
pub fn journal_fault(fault: AuditFault) -> OutputFault
    ensures { result ≡ journal_fault fault }
{
    match fault {
        AuditFault::NotJournal => OutputFault::NotJournal,
        AuditFault::NotLegal => OutputFault::NotLegal,
        AuditFault::NotFaithful { task } => OutputFault::NotFaithful { task },
    }
}
