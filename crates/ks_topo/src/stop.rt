//! Why the judging of a draft ends early.
use ks_plan::TopoFault;
use std::alloc::{AllocError, AllocFailed};

/// Want of memory, or a fault of the draft.
#[derive(Drop)]
pub enum Refusal {
    Memory,
    Fault(TopoFault),
}

impl From<AllocError> for Refusal {
    ghost from_gives = { λ _ e. e ≡ Memory };

    ghost use Rattle.std.specs.Prelude.{◌≡◌};
    ghost use Rattle.ks_topo.specs.declared.stop.Refusal.TheVariants.{Memory};

    fn from(_error: AllocError) -> Refusal {
        Refusal::Memory
    }
}

impl<T: Drop> From<AllocFailed<T>> for Refusal {
    ghost from_gives = { λ _ e. e ≡ Memory };

    ghost use Rattle.std.specs.Prelude.{◌≡◌};
    ghost use Rattle.ks_topo.specs.declared.stop.Refusal.TheVariants.{Memory};

    fn from(_failed: AllocFailed<T>) -> Refusal {
        Refusal::Memory
    }
}
