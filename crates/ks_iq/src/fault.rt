//! Why an ask has no answer.
ghost use Rattle.std.specs.Prelude.{◌≡◌};
ghost use Rattle.ks_iq.specs.Codes.{fault_code};

use ks_record::TaskId;

/// Why an ask has no answer, in the order in which it is tested.
#[derive(Clone, Copy, PartialEq, Eq, Debug)]
pub enum IqFault {
    /// No table and no windowed count has the name.
    UnknownStore,
    /// A start is given for a node that isn't a windowed count, or none for one.
    WrongStart,
    /// The key is another task's.
    WrongTask { owner: TaskId },
    /// The task has taken records since its last commit.
    NotClean,
    /// The position is below the one that was asked for.
    Behind { position: u64 },
}

impl IqFault {
    /// The number of the fault, 30 to 34.
    pub fn code(&self) -> u8
        ensures { result ≡ fault_code self.now }
    {
        match self {
            IqFault::UnknownStore => 30,
            IqFault::WrongStart => 31,
            IqFault::WrongTask { .. } => 32,
            IqFault::NotClean => 33,
            IqFault::Behind { .. } => 34,
        }
    }
}
