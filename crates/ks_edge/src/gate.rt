//! What tells a worker its next act.
ghost use Rattle.std.specs.Prelude.{◌≡◌, ◌+◌, ℕ};
ghost use Rattle.ks_edge.specs.Counts.{stops_of, calls_of, one_if, HasRoom};

/// What a gate sees of a worker before its next act. `turn`, `dirty` and `dry` stay at their type's greatest value where
/// they would pass it.
#[derive(Clone, Copy, PartialEq, Eq)]
pub struct TurnView {
    /// The worker's number.
    pub worker: u8,
    /// The number of the worker's turn, from 1.
    pub turn: u64,
    /// How many tasks the worker has.
    pub tasks: u32,
    /// The sum of position minus committed offset over the inputs of the worker's tasks.
    pub dirty: u64,
    /// How many `Work` acts there were since the last one that moved something, or since the worker's start. Other acts
    /// don't change it.
    pub dry: u32,
    /// How many markers wait to be written.
    pub waiting: u32,
    /// Whether more input may still come while the workers run.
    pub feeding: bool,
}

/// What a worker may be told to do.
#[derive(Clone, Copy, PartialEq, Eq)]
pub enum Act {
    /// Take records of a task, which the number picks.
    Work(u32),
    /// Commit what was done.
    Commit,
    /// Abort what was done.
    Abort,
    /// Forget everything and begin anew.
    Crash,
    /// Leave the group.
    Leave,
    /// Feed the worker's replicas, and write the markers that wait.
    Pump,
    /// Tell the worker's positions, and begin a new generation.
    Probe,
    /// Throw a worker out of the group.
    Evict(u8),
    /// End the worker.
    Stop,
}

/// What tells a worker its acts, and where it is cut off. Every sequence of acts and cuts is allowed.
pub trait Gate: Drop {
    // How often it was asked for an act since its last reset.
    ghost asked: { Self → ℕ };

    // How often it answered `Stop`.
    ghost stops: { Self → ℕ };

    // How often it answered an act that calls on the group.
    ghost calls: { Self → ℕ };

    // How often it said that the worker is cut off.
    ghost cuts: { Self → ℕ };

    /// Begins for a worker; all counts are 0 afterwards.
    fn reset(&mut self, worker: u8, seed: Option<u64>, interval: u32)
        ensures asked { asked self.new ≡ 0 }
        ensures stops { stops self.new ≡ 0 }
        ensures calls { calls self.new ≡ 0 }
        ensures cuts { cuts self.new ≡ 0 };

    /// The worker's next act.
    fn next(&mut self, view: TurnView) -> Act
        requires { HasRoom (asked self.old) (stops self.old) (calls self.old) (cuts self.old) }
        ensures asked { asked self.new ≡ asked self.old + 1 }
        ensures stops { stops self.new ≡ stops self.old + stops_of result }
        ensures calls { calls self.new ≡ calls self.old + calls_of result }
        ensures cuts { cuts self.new ≡ cuts self.old };

    /// Whether the worker is cut off before this step of its turn; the steps count from 0.
    fn cut(&mut self, step: u32) -> bool
        requires { HasRoom (asked self.old) (stops self.old) (calls self.old) (cuts self.old) }
        ensures asked { asked self.new ≡ asked self.old }
        ensures stops { stops self.new ≡ stops self.old }
        ensures calls { calls self.new ≡ calls self.old }
        ensures cuts { cuts self.new ≡ cuts self.old + one_if result };
}
