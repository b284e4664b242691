//! What a worker's gate sees of it.
ghost use Rattle.std.specs.Prelude.{◌≡◌, ◌-◌, ◌^◌, min};
ghost use Rattle.ks_worker.specs.View.{uncommitted_by, IsShown};

use crate::worker::Worker;
use ks_cluster::Work;
use ks_edge::{Gate, TurnView};
use ks_task::Task;

// Whether some task has read past its committed offsets.
fn is_some_dirty(tasks: &[Task]) -> bool {
    for task in tasks {
        if !task.is_clean() {
            return true;
        }
    }
    false
}

// How far these tasks have read past their committed offsets, in all; 2^64 - 1 where that would be more.
fn uncommitted_of(tasks: &[Task]) -> u64
    ensures { result ≡ min (uncommitted_by tasks.now) (2 ^ 64 - 1) }
{
    let mut sum: u64 = 0;
    let mut rest = tasks;
    while let [task, more @ ..] = rest {
        sum = sum.saturating_add(task.uncommitted());
        rest = more;
    }
    sum
}

// A number as 32 bits; the greatest where it is more.
fn narrow(n: usize) -> u32
    ensures { result ≡ min n (2 ^ 32 - 1) }
{
    match u32::try_from(n) {
        Ok(n) => n,
        Err(_) => u32::MAX,
    }
}

impl<W: Work, G: Gate> Worker<W, G> {
    /// Whether its last `Work` moved nothing, and nothing that it read is left to commit.
    pub(crate) fn is_idle(&self) -> bool {
        self.dry > 0 && !is_some_dirty(self.state.tasks.as_slice())
    }

    /// What its gate is shown before its next act: of its tasks, how far they have read past what is committed.
    pub(crate) fn view(&self, feeding: bool) -> TurnView
        ensures { IsShown self.now feeding result }
    {
        let tasks = self.state.tasks.as_slice();
        TurnView {
            worker: self.state.member.number,
            turn: self.turn,
            tasks: narrow(tasks.len()),
            dirty: uncommitted_of(tasks),
            dry: self.dry,
            waiting: self.waiting,
            feeding,
        }
    }
}
