// What the lock knows of its value.
ghost use Rattle.std.specs.Prelude.{◌≡◌, Bool, List, length};

/// A value that keeps a journal: a list of entries, in the order in which they were added.
pub trait Journaled {
    /// What the journal is a list of.
    type Entry;

    /// What of the value never changes.
    type Frame;

    /// The journal of a value.
    ghost journal: { Self → List Self.Entry };

    /// Which entries only the pass with number 0 may add.
    ghost reserved: { Self.Entry → Bool };

    /// The frame of a value.
    ghost frame: { Self → Self.Frame };

    /// The number of entries of the journal. Takes no memory.
    fn entries(&self) -> u64
        ensures { result ≡ length (journal self.now) };
}
