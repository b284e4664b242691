//! What a read is, later on. The law is the contract of a function that does nothing.
ghost use Rattle.ks_iq.specs.Reads.{ReadsLast};

/// Whatever is written later, a read at a position is one.
pub fn reads_last()
    ensures { ReadsLast }
{}
