//! Why a turn ends before its act is done.
ghost use Rattle.std.specs.Prelude.{◌≡◌};
ghost use Rattle.ks_worker_client.specs.Turns.{with_halt};

use std::alloc::AllocError;

/// Why a worker's turn ends early.
#[derive(Clone, Copy, PartialEq, Eq)]
pub enum Halt {
    /// The gate cut the worker off.
    Cut,
    /// No memory.
    OutOfMemory,
}

/// An answer with want of memory as what ends the turn.
pub fn or_halt<T: Drop>(answer: Result<T, AllocError>) -> Result<T, Halt>
    ensures { result ≡ with_halt answer }
{
    match answer {
        Ok(value) => Ok(value),
        Err(AllocError) => Err(Halt::OutOfMemory),
    }
}
