//! The assignment of a generation.
ghost use Rattle.std.specs.Prelude.{◌≡◌, ◌≢◌, ◌⊎◌, ◌≤◌, ℕ, true, [], Some, None, IfOk, IfSome, OnOk};
ghost use Rattle.ks_history.specs.History.{are_places};
ghost use Rattle.ks_history.specs.Reads.{status};
ghost use Rattle.ks_plan.specs.Infos.{changelog_numbers};
ghost use Rattle.ks_plan.specs.Layout.{tasks};
ghost use Rattle.ks_topo.specs.Topologies.{plan_in};
ghost use Rattle.ks_cluster.specs.Placed.{IsGoodAt};
ghost use Rattle.ks_shared.specs.Calls.{setup_in, good_in};
ghost use Rattle.ks_worker_client.specs.Turns.{counts_after};
ghost use Rattle.ks_worker_client.specs.Calls.{MayCall, Later, state_seen};
ghost use Rattle.ks_worker_state.specs.Gained.{HasMadeOnly};
ghost use Rattle.ks_assign_group.specs.Groups.{IsGoodBy, clients_of};
ghost use Rattle.ks_worker_turn.specs.Acting.{WasAssigned};
ghost use Rattle.ks_worker_turn.specs.Beginning.{HasOffered};
ghost use Rattle.ks_worker_turn.specs.Placing.{MayOffer};
ghost use Rattle.ks_worker_turn.specs.Requests.{is_of_turn};

use ks_assign::Placing;
use ks_assign_group::assign_group;
use ks_cluster::Work;
use ks_edge::Gate;
use ks_history::Status;
use ks_record::Assignment;
use ks_shared::Shared;
use ks_topo::Topology;
use ks_worker_client::{ClusterClient, Halt};
use std::alloc::{AllocError, Global};
use std::sync::Wait;

/// A new assignment for the generation that a status told, good by what it told; None where the generation has one already, or no
/// member.
pub fn new_assignment(
    alloc: Global,
    topology: &Topology,
    placing: &Placing,
    told: &Status,
) -> Result<Option<Assignment>, AllocError>
    requires threads { 1 ≤ placing.now.threads }
    ensures good { IfOk result (λ o. IfSome o (IsGoodBy (changelog_numbers (plan_in topology.now))
        (tasks (plan_in topology.now)) placing.now told.now)) }
    ensures none { IfOk result (λ o. o ≡ None → (told.now.assignment ≢ None)
        ⊎ (clients_of placing.now.threads told.now.members ≡ [])) }
    ensures some { IfOk result (λ o. o ≢ None → clients_of placing.now.threads
        told.now.members ≢ []) }
{
    if told.assignment.is_some() {
        return Ok(None);
    }
    assign_group(alloc, topology, placing, told)
}

// Gives a generation an assignment; None where it has one already, or where the group refuses it.
fn offer_assignment<R: Wait, W: Work, G: Gate>(
    rt: &R,
    alloc: Global,
    shared: &Shared<W>,
    client: &mut ClusterClient<W, G>,
    number: u8,
    generation: u64,
    assignment: Assignment,
) -> Result<Option<Assignment>, Halt>
    requires may { MayCall W.plan shared.now.growing.id client.old.pass client.old.gate }
    requires number { number ≤ 16 }
    requires active { are_places (setup_in W.plan client.old.pass.frame) assignment.active ≡ true }
    requires standby { are_places (setup_in W.plan client.old.pass.frame) assignment.standby
        ≡ true }
    requires warmup { are_places (setup_in W.plan client.old.pass.frame) assignment.warmup ≡ true }
    requires good { IsGoodAt (good_in W.good client.old.pass.frame)
        (setup_in W.plan client.old.pass.frame) client.old.pass.seen generation assignment }
    ensures gate { client.new.gate ≡ counts_after client.old.gate result }
    ensures later { Later W.plan client.old.pass client.new.pass }
    ensures made { OnOk result ((instance : ℕ) → HasMadeOnly (is_of_turn number instance)
        client.old.pass client.new.pass) }
    ensures told { IfOk result (λ o. IfSome o (λ a. WasAssigned W.plan client.old.pass
        client.new.pass generation)) }
    ensures offered { IfOk result (λ o. HasOffered W.plan client.old.pass client.new.pass
        number generation assignment (λ moment. o ≡ Some assignment) (o ≡ None)) }
{
    let answer = client.assign(rt, alloc, shared, number, generation, &assignment)?;
    let Ok(taken) = answer else {
        return Ok(None);
    };
    if !taken {
        return Ok(None);
    }
    Ok(Some(assignment))
}

/// The assignment of the generation that a status told: the told one; or the one on offer, which is good by the status, where the group
/// takes it. None where nothing is on offer, where the generation has got another assignment meanwhile, or where it is over.
///
/// Errors: the gate cut the worker off, or no memory.
pub fn assignment_of<R: Wait, W: Work, G: Gate>(
    rt: &R,
    alloc: Global,
    shared: &Shared<W>,
    client: &mut ClusterClient<W, G>,
    number: u8,
    told: Status,
    offer: Option<Assignment>,
) -> Result<Option<Assignment>, Halt>
    requires may { MayCall W.plan shared.now.growing.id client.old.pass client.old.gate }
    requires number { number ≤ 16 }
    requires status { told ≡ status (setup_in W.plan client.old.pass.frame)
        (state_seen W.plan client.old.pass) }
    requires offer { IfSome offer (MayOffer W.plan W.good client.old.pass.frame told) }
    ensures gate { client.new.gate ≡ counts_after client.old.gate result }
    ensures later { Later W.plan client.old.pass client.new.pass }
    ensures made { OnOk result ((instance : ℕ) → HasMadeOnly (is_of_turn number instance)
        client.old.pass client.new.pass) }
    ensures told { IfOk result (λ o. IfSome o (λ a. WasAssigned W.plan client.old.pass
        client.new.pass told.generation)) }
    ensures given { IfOk result (λ o. told.assignment ≢ None → o ≡ told.assignment) }
    ensures offered { IfOk result (λ o. told.assignment ≡ None
        → IfSome offer (λ a. HasOffered W.plan
        client.old.pass client.new.pass number told.generation a
        (λ moment. o ≡ Some a) (o ≡ None))) }
    ensures idle { IfOk result (λ o. told.assignment ≡ None → offer ≡ None → o ≡ None) }
{
    if told.assignment.is_some() {
        drop(offer);
        return Ok(told.assignment);
    }
    let generation = told.generation;
    drop(told);
    let Some(assignment) = offer else {
        return Ok(None);
    };
    offer_assignment(rt, alloc, shared, client, number, generation, assignment)
}
