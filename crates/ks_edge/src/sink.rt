//! A sink of bytes.
ghost use Rattle.std.specs.Prelude.{◌≡◌, ◌<◌, ℕ, List, Option, length, IfOk};
ghost use Rattle.std.specs.Io.{WritesAtMost};
ghost use Rattle.std.specs.Io.KnownBytes.{WriteAppends};
ghost use Rattle.ks_edge.specs.Causes.{HasCause};

use crate::source::Failed;

/// Where the bytes of an answer go.
pub trait Sink {
    // The bytes held, where it tells them.
    ghost held: { Self → Option (List ℕ) };

    // How many faults there were so far. It never falls, and rises only where a call fails.
    ghost faults: { Self → ℕ };

    /// Appends a front of the piece and says how long it is: at least one byte, unless the piece is empty.
    ///
    /// # Errors
    ///
    /// `Failed` only where the count of faults rose; nothing was appended then.
    fn put(&mut self, piece: &[u8]) -> Result<usize, Failed>
        ensures bound { WritesAtMost result piece.now }
        ensures bytes { WriteAppends (held self.old) (held self.new) result piece.now }
        ensures progress { 0 < length piece.now → IfOk result (λ count. 0 < count) }
        ensures cause { HasCause (faults self.old) (faults self.new) result };
}
