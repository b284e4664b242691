//! Good assignments: the test, and the making of one.
ghost use Rattle.std.specs.Prelude.{◌≡◌, ◌↔◌, IsTrue, IfOk, true};
ghost use Rattle.ks_assign.specs.Placement.{IsGood, AreClients, tasks_apart};
ghost use Rattle.ks_assign.specs.Rows.{GoodIsATest};

use crate::backing::{candidates, standbys};
use crate::balancing::balance;
use crate::clients::{Client, Held, Wants};
use crate::placing::place;
use crate::points::{
    are_even, has_standbys, is_balanced, places_tasks, prepares, runs_warm, warms_up,
};
use crate::spreading::spread;
use ks_record::{Assignment, Seq, TaskId};
use std::alloc::{AllocError, Global};

/// Whether an assignment of the tasks to the clients is good (KIP-441), by the lags that are told and by what is wanted:
///
/// 1. Each task is active exactly once, and no place names another task or a worker of no client.
/// 2. Where some client is warm for a task, its active client is. A client is warm where its lag is at most `wants.lag`.
/// 3. Where client A has at least two more active tasks than client B, then for each active task of A some client is warm
///    and B isn't.
/// 4. Each task has exactly `wants.standbys` standbys, or one for each other client where there are fewer, at distinct
///    clients other than the active one's.
/// 5. There are at most `wants.warmups` warmups, each at a client that isn't warm for the task and has nothing else of it.
/// 6. Where A has at least two more active tasks than B and there are fewer warmups than wanted, each active task of A has a
///    standby or a warmup at B.
/// 7. The active counts of two workers of one client differ by at most 1.
///
/// It takes no memory, and any tasks, clients and lags may be given.
pub fn check(
    tasks: &[TaskId],
    clients: &[Client],
    held: &[Held],
    wants: &Wants,
    a: &Assignment,
) -> bool
    ensures { IsTrue result ↔ IsGood tasks.now clients.now held.now wants.now a.now }
{
    let active = a.active.as_slice();
    if !places_tasks(tasks, clients, a) {
        return false;
    }
    if !runs_warm(clients, held, wants.lag, active) {
        return false;
    }
    if !is_balanced(clients, held, wants.lag, active) {
        return false;
    }
    if !has_standbys(tasks, clients, wants.standbys, a) {
        return false;
    }
    if !warms_up(clients, held, wants, a) {
        return false;
    }
    if !prepares(clients, wants.warmups, a) {
        return false;
    }
    are_even(clients, active)
}

/// A good assignment of the tasks to the clients, as `check` has it. Of a client and a task of which no lag is told the client
/// isn't warm for it. Standbys and warmups are spread over their client's workers as evenly as active tasks are, each list by
/// itself. Want of memory is the one error.
pub fn assign(
    alloc: Global,
    tasks: &[TaskId],
    clients: &[Client],
    held: &[Held],
    wants: &Wants,
) -> Result<Assignment, AllocError>
    requires clients { AreClients clients.now }
    requires tasks { tasks_apart tasks.now ≡ true }
    ensures { IfOk result (λ a. IsGood tasks.now clients.now held.now wants.now a) }
{
    let mut plan = place(alloc, tasks, clients, held, wants.lag)?;
    balance(clients, held, wants.lag, plan.as_mut_slice());
    let active = spread(alloc, clients, &plan)?;
    let chosen = standbys(alloc, clients, wants.standbys, &active)?;
    let standby = spread(alloc, clients, &chosen)?;
    let mut found = candidates(alloc, clients, &active, &standby)?;
    found.truncate(wants.warmups as usize);
    let warmup = spread(alloc, clients, &found)?;
    Ok(Assignment {
        active: Seq::of(active),
        standby: Seq::of(standby),
        warmup: Seq::of(warmup),
    })
}

/// Whether an assignment is good is a test over the tasks, the clients, the lags and the assignment: it is true exactly where all seven
/// points hold.
#[tactic(auto, using(crate::proofs::Tests::good_is_a_test))]
pub fn good_is_a_test()
    ensures { GoodIsATest }
{}
