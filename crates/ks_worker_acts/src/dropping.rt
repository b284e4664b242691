//! The act by which a worker gives up what its tasks took.
ghost use Rattle.std.specs.Prelude.{◌≡◌};
ghost use Rattle.std.specs.List.{filter};
ghost use Rattle.ks_plan.specs.Drafts.{DraftView};
ghost use Rattle.ks_worker_state.specs.State.{IsWorkerState};
ghost use Rattle.ks_worker_acts.specs.Telling.{is_clean_task};

use ks_cluster::Work;
use ks_edge::Gate;
use ks_task::Task;
use ks_worker_state::WorkerState;

// Whether a task took nothing since its last commit.
fn is_clean(task: &Task) -> bool
    ensures { result ≡ is_clean_task task.now }
{
    task.is_clean()
}

/// Drops its dirty tasks, and makes no call. Takes no memory.
pub fn abort<W: Work, G: Gate>(state: &mut WorkerState<W, G>)
    ensures member { state.new.member ≡ state.old.member }
    ensures session { state.new.session ≡ state.old.session }
    ensures replicas { state.new.replicas ≡ state.old.replicas }
    ensures tasks { state.new.tasks.items ≡ filter is_clean_task state.old.tasks.items }
    ensures worker { (d : DraftView) → IsWorkerState W.plan d state.old
        → IsWorkerState W.plan d state.new }
{
    state.tasks.retain(
        |task: &Task|
            ensures { result ≡ is_clean_task task.now }
        { is_clean(task) },
    );
}
