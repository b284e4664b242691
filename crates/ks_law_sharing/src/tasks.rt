//! What keeps a worker's tasks following the journal, among others that write it (KIP-441, KIP-447). Each law is the contract of a
//! function that does nothing.
ghost use Rattle.ks_law_sharing.specs.Tasks.{SeenStays, AssignedStays, ActiveStays, RestoredIsActive, FetchingStaysActive};

/// A generation and a place that were seen are of every longer journal's past.
pub fn seen_stays()
    ensures { SeenStays }
{}

/// While the generation stands and nobody uses the worker's number, a task that is its own stays so, and nothing is committed for it.
pub fn assigned_stays()
    ensures { AssignedStays }
{}

/// A worker's active task stays one whatever others write.
pub fn active_stays()
    ensures { ActiveStays }
{}

/// A task made of a replica that has reached the ends of its changelogs, as they were after its committed offsets were answered, is
/// active.
pub fn restored_is_active()
    ensures { RestoredIsActive }
{}

/// An active task that takes all that a fetch gives of an input, and goes on where the next fetch does, stays active.
pub fn fetching_stays_active()
    ensures { FetchingStaysActive }
{}
