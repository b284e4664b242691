//! Why a commit's requests stop.
ghost use Rattle.std.specs.Prelude.{◌≡◌};
ghost use Rattle.ks_worker_commit.specs.declared.halt.Halt.TheVariants.{OutOfMemory};

use ks_shared::Barred;
use std::alloc::AllocError;

/// Why the requests of a commit stop.
#[derive(Drop)]
pub enum Halt {
    /// There is no memory.
    OutOfMemory,
    /// The gate cut the worker off.
    Cut,
    /// A request wasn't done.
    Barred(Barred),
}

impl From<AllocError> for Halt {
    ghost from_gives = { λ _ e. e ≡ OutOfMemory };

    fn from(_e: AllocError) -> Halt {
        Halt::OutOfMemory
    }
}
