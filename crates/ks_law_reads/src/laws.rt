//! What a read is. Each law is the contract of a function that does nothing.
ghost use Rattle.ks_law_reads.specs.Laws.{ReadsLast, ReplicaReads};

/// Whatever is written later, a read of a task's changelog is one.
pub fn reads_last()
    ensures { ReadsLast }
{}

/// What a replica has at a key is a read at its position, in every journal that it follows.
pub fn replica_reads()
    ensures { ReplicaReads }
{}
