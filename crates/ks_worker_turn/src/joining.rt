//! A worker joins its group.
ghost use Rattle.std.specs.Prelude.{◌≡◌, ◌≤◌, ◌++◌, ◌∷◌, ℕ, true, false, [], replicate, OnOk};
ghost use Rattle.ks_history.specs.declared.journal.Request.TheVariants.{Init, Join, MarkNext};
ghost use Rattle.ks_worker_client.specs.Turns.{counts_after};
ghost use Rattle.ks_worker_client.specs.Calls.{MayCall, Later};
ghost use Rattle.ks_worker_state.specs.Gained.{HasMade};
ghost use Rattle.ks_worker_state.specs.State.{LaterState};
ghost use Rattle.ks_worker_turn.specs.Acting.{KeepsWorker};
ghost use Rattle.ks_worker_turn.specs.Requests.{MakesTurn, joining, HasBegunEpoch};

use ks_cluster::Work;
use ks_edge::Gate;
use ks_shared::Shared;
use ks_worker_client::{ClusterClient, Halt};
use ks_worker_state::WorkerState;
use std::alloc::Global;
use std::sync::Wait;

// Begins an epoch of the worker's producer, which has sent nothing yet.
fn begin_epoch<R: Wait, W: Work, G: Gate>(
    rt: &R,
    alloc: Global,
    shared: &Shared<W>,
    state: &mut WorkerState<W, G>,
) -> Result<(), Halt>
    requires may { MayCall W.plan shared.now.growing.id state.old.session.client.pass
        state.old.session.client.gate }
    requires number { state.old.member.number ≤ 15 }
    requires outside { state.old.member.is_member ≡ false }
    ensures gate { state.new.session.client.gate
        ≡ counts_after state.old.session.client.gate result }
    ensures later { LaterState W.plan state.old state.new }
    ensures made { OnOk result (HasMade state.old.session.client.pass
        state.new.session.client.pass (Init state.old.member.number ∷ [])) }
    ensures worker { OnOk result (KeepsWorker W.plan state.old state.new) }
    ensures begun { OnOk result (HasBegunEpoch W.plan state.old state.new) }
    ensures outside { state.new.member.is_member ≡ state.old.member.is_member }
    ensures generation { state.new.member.generation ≡ state.old.member.generation }
    ensures tasks { state.new.tasks ≡ state.old.tasks }
    ensures replicas { state.new.replicas ≡ state.old.replicas }
{
    let session = &mut state.session;
    let epoch = session
        .client
        .init(rt, alloc, shared, state.member.number, &mut session.last)?;
    session.numbers.clear();
    state.member.epoch = epoch;
    Ok(())
}

// Writes all waiting markers of a producer.
fn write_markers<R: Wait, W: Work, G: Gate>(
    rt: &R,
    alloc: Global,
    shared: &Shared<W>,
    client: &mut ClusterClient<W, G>,
    number: u8,
) -> Result<(), Halt>
    requires may { MayCall W.plan shared.now.growing.id client.old.pass client.old.gate }
    requires number { number ≤ 16 }
    ensures gate { client.new.gate ≡ counts_after client.old.gate result }
    ensures later { Later W.plan client.old.pass client.new.pass }
    ensures made { OnOk result ((marks : ℕ) × HasMade client.old.pass client.new.pass
        (replicate marks (MarkNext number))) }
{
    for _ in rt.forever() {
        if client.mark_next(rt, alloc, shared, number)?.is_none() {
            return Ok(());
        }
    }
    unreachable!()
}

// Writes its own waiting markers, and becomes a member.
fn enter_group<R: Wait, W: Work, G: Gate>(
    rt: &R,
    alloc: Global,
    shared: &Shared<W>,
    client: &mut ClusterClient<W, G>,
    number: u8,
) -> Result<(), Halt>
    requires may { MayCall W.plan shared.now.growing.id client.old.pass client.old.gate }
    requires number { number ≤ 15 }
    ensures gate { client.new.gate ≡ counts_after client.old.gate result }
    ensures later { Later W.plan client.old.pass client.new.pass }
    ensures made { OnOk result ((marks : ℕ) × HasMade client.old.pass client.new.pass
        (replicate marks (MarkNext number) ++ Join number ∷ [])) }
{
    write_markers(rt, alloc, shared, client, number)?;
    client.join(rt, alloc, shared, number)?;
    Ok(())
}

/// Makes the worker a member of its group: where it is none, it begins an epoch of its producer, writes the markers that wait for this
/// producer, and joins. A member does nothing.
///
/// Errors: the gate cut the worker off, or no memory; the worker is then to be crashed.
pub fn join_group<R: Wait, W: Work, G: Gate>(
    rt: &R,
    alloc: Global,
    shared: &Shared<W>,
    state: &mut WorkerState<W, G>,
) -> Result<(), Halt>
    requires may { MayCall W.plan shared.now.growing.id state.old.session.client.pass
        state.old.session.client.gate }
    requires number { state.old.member.number ≤ 15 }
    ensures gate { state.new.session.client.gate
        ≡ counts_after state.old.session.client.gate result }
    ensures later { LaterState W.plan state.old state.new }
    ensures made { OnOk result (MakesTurn state.old state.new) }
    ensures worker { OnOk result (KeepsWorker W.plan state.old state.new) }
    ensures member { OnOk result (state.new.member.is_member ≡ true) }
    ensures generation { state.new.member.generation ≡ state.old.member.generation }
    ensures tasks { state.new.tasks ≡ state.old.tasks }
    ensures replicas { state.new.replicas ≡ state.old.replicas }
    ensures joined { OnOk result (state.old.member.is_member ≡ false
        → (marks : ℕ) × HasMade state.old.session.client.pass state.new.session.client.pass
        (joining state.old.member.number marks)) }
    ensures begun { OnOk result (state.old.member.is_member ≡ false
        → HasBegunEpoch W.plan state.old state.new) }
    ensures nothing { state.old.member.is_member ≡ true → state.new ≡ state.old }
{
    if state.member.is_member {
        return Ok(());
    }
    begin_epoch(rt, alloc, shared, state)?;
    enter_group(
        rt,
        alloc,
        shared,
        &mut state.session.client,
        state.member.number,
    )?;
    state.member.is_member = true;
    Ok(())
}
