//! What keeps the tasks that a worker holds (KIP-441, KIP-447). Each law is the contract of a function that does nothing.
ghost use Rattle.ks_law_commit.specs.Held.{HeldStays, FetchingHolds, RestoringHolds};

/// A task stays held whatever others write.
pub fn held_stays()
    ensures { HeldStays }
{}

/// So it does when it takes all that a fetch gives, and goes on where the next fetch does.
pub fn fetching_holds()
    ensures { FetchingHolds }
{}

/// A task is held that is made of a replica which has reached the ends of its changelogs, as they were after its committed offsets were
/// answered.
pub fn restoring_holds()
    ensures { RestoringHolds }
{}
