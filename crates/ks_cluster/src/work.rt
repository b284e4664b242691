//! What the tasks of a cluster do.
ghost use Rattle.std.specs.Prelude.{◌≡◌, ℕ};
ghost use Rattle.ks_history.specs.Machine.{TaskPlan, IsNetwork};
ghost use Rattle.ks_cluster.specs.Placed.{PlacementTest};

/// The work of a cluster's tasks: which topics they read and write, and, as meanings alone, what they make of a record and how they are
/// to be placed.
pub trait Work: Drop {
    /// The topics of each subtopology, and what its tasks make of a record.
    ghost plan: { Self → TaskPlan };

    /// Which assignments are good for a generation's members, the positions that they hold and the ends of the changelogs.
    ghost good: { Self → PlacementTest };

    /// The number of input topics, which have the first numbers.
    fn sources(&self) -> u16
        ensures { result ≡ (plan self.now).sources };

    /// The topics that the tasks of a subtopology read.
    fn inputs(&self, sub: u8) -> &[u16]
        ensures { result.now ≡ (plan self.now).inputs sub };

    /// The changelogs that the tasks of a subtopology write.
    fn changelogs(&self, sub: u8) -> &[u16]
        ensures { result.now ≡ (plan self.now).changelogs sub };

    /// A law: the tasks are a network. A topic is read by one subtopology; a changelog is no topic of the job, is read by no task,
    /// belongs to one subtopology and gets no record from another task; and it tells each change of its store.
    ghost network: { (work : Self) → IsNetwork (plan work) };
}
