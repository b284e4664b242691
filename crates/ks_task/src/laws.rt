//! What a task is that was made of a replica. The law is the contract of a function that does nothing.
ghost use Rattle.ks_task.specs.Restored.{MadeIsRestored};

/// The committed offsets were answered, then the ends of the changelogs were read, and the replica was fed to these ends: the task
/// made of it with these offsets follows the journal, and is the worker's own, while its generation stands and nobody else uses its
/// number.
pub fn made_is_restored()
    ensures { MadeIsRestored }
{}
