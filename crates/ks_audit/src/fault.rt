//! Why a line of a journal is refused.
ghost use Rattle.std.specs.Prelude.{◌≡◌};

use ks_record::TaskId;
use std::alloc::AllocError;

/// Why a line of a journal is refused.
#[derive(Debug, Clone, Copy, PartialEq, Eq)]
pub enum AuditFault {
    /// It is the text of no entry.
    NotJournal,
    /// A condition of its request is false, a record is no input record at its place, or the reply is not that of the step.
    NotLegal,
    /// It is a commit that is accepted and not faithful; the first task, in order of tasks, for which it isn't.
    NotFaithful { task: TaskId },
}

/// Why a line isn't taken: its fault, or want of memory.
#[derive(Clone, Copy, PartialEq, Eq)]
pub(crate) enum LineStop {
    Fault(AuditFault),
    Memory,
}

impl From<AllocError> for LineStop {
    ghost use Rattle.ks_audit.specs.declared.fault.LineStop.TheVariants.{Memory};

    ghost from_gives = { λ _ e. e ≡ Memory };

    fn from(_: AllocError) -> Self {
        LineStop::Memory
    }
}
