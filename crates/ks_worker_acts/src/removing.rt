//! The act by which a worker removes another one from the group.
ghost use Rattle.std.specs.Prelude.{◌≡◌, ◌≤◌, ◌<◌, [], ◌∷◌, OnOk};
ghost use Rattle.ks_plan.specs.Drafts.{DraftView};
ghost use Rattle.ks_history.specs.declared.journal.Request.TheVariants.{Expire};
ghost use Rattle.ks_worker_client.specs.Turns.{counts_after};
ghost use Rattle.ks_worker_client.specs.Calls.{MayCall};
ghost use Rattle.ks_worker_state.specs.State.{LaterState, KnowsTheSame, IsWorkerState};
ghost use Rattle.ks_worker_state.specs.Gained.{HasMade};

use ks_cluster::Work;
use ks_edge::Gate;
use ks_shared::Shared;
use ks_worker_client::Halt;
use ks_worker_state::WorkerState;
use std::alloc::Global;
use std::sync::Wait;

// The greatest number of a worker.
const LAST_WORKER: u8 = 15;

/// Removes worker `w` from the group, by `expire`; does nothing for a `w` above 15.
///
/// After `Cut` or want of memory the worker itself is to be crashed.
pub fn evict<R: Wait, W: Work, G: Gate>(
    rt: &R,
    alloc: Global,
    shared: &Shared<W>,
    state: &mut WorkerState<W, G>,
    w: u8,
) -> Result<(), Halt>
    requires may { MayCall W.plan shared.now.growing.id state.old.session.client.pass
        state.old.session.client.gate }
    ensures gate { state.new.session.client.gate
        ≡ counts_after state.old.session.client.gate result }
    ensures later { LaterState W.plan state.old state.new }
    ensures same { KnowsTheSame state.old state.new }
    ensures tasks { state.new.tasks ≡ state.old.tasks }
    ensures replicas { state.new.replicas ≡ state.old.replicas }
    ensures worker { (d : DraftView) → IsWorkerState W.plan d state.old
        → IsWorkerState W.plan d state.new }
    ensures expired { OnOk result (w ≤ 15 → HasMade state.old.session.client.pass
        state.new.session.client.pass (Expire w ∷ [])) }
    ensures quiet { 15 < w → state.new.session.client.pass.made
        ≡ state.old.session.client.pass.made }
{
    if w > LAST_WORKER {
        return Ok(());
    }
    state.session.client.expire(rt, alloc, shared, w)?;
    Ok(())
}
