//! A source of bytes.
ghost use Rattle.std.specs.Prelude.{ℕ, List, Option};
ghost use Rattle.std.specs.Io.{ReadsAtMost};
ghost use Rattle.std.specs.Io.KnownBytes.{ReadConsumes};
ghost use Rattle.ks_edge.specs.Causes.{HasCause};

/// A device failed.
#[derive(Clone, Copy, PartialEq, Eq, Debug)]
pub struct Failed;

/// Where the bytes of a job come from.
pub trait Source {
    // The bytes left, where it tells them.
    ghost left: { Self → Option (List ℕ) };

    // How many faults there were so far. It never falls, and rises only where a call fails.
    ghost faults: { Self → ℕ };

    /// Gives the next bytes, at most as many as the buffer has room for, and says how many.
    /// `Ok(0)` for a buffer that isn't empty is the end.
    ///
    /// # Errors
    ///
    /// `Failed` only where the count of faults rose; no byte is lost then.
    fn take(&mut self, buf: &mut [u8]) -> Result<usize, Failed>
        ensures bound { ReadsAtMost result buf.new }
        ensures bytes { ReadConsumes (left self.old) (left self.new) result buf.new }
        ensures cause { HasCause (faults self.old) (faults self.new) result };
}
