//! The seven points of a good assignment, each as a test. Nothing here takes memory.
ghost use Rattle.std.specs.Prelude.{◌≡◌, ◌==◌, ◌+◌, ◌-◌, ◌≤◌, nat_le, min, length};
ghost use Rattle.std.specs.List.{list_all};
ghost use Rattle.ks_assign.specs.Placement.{by_client, load, copies, each_once, all_known, places_tasks, runs_warm, stays, is_balanced, is_spread, has_standbys, all_cold, warms_up, is_prepared, all_prepared, prepares, is_even, all_even};

use crate::clients::{Client, Held, Wants};
use crate::counting::{copies_at, home_of, is_known, load_of, times_of};
use crate::lags::{is_warm, may_run};
use crate::loads::Loads;
use ks_record::{Assignment, TaskId};

// Each task is active exactly once.
fn are_each_once(tasks: &[TaskId], clients: &[Client], active: &[(TaskId, u8)]) -> bool
    ensures { result ≡ each_once tasks.now (by_client clients.now active.now) }
{
    for t in tasks {
        if times_of(clients, active, *t) != 1 {
            return false;
        }
    }
    true
}

// Only these tasks are named, each at a worker of some client.
fn are_known(tasks: &[TaskId], clients: &[Client], places: &[(TaskId, u8)]) -> bool
    ensures { result ≡ all_known tasks.now (by_client clients.now places.now) }
{
    for p in places {
        if !(is_known(tasks, p.0) && home_of(clients, p.1) < 256) {
            return false;
        }
    }
    true
}

/// Point 1: each task is active exactly once, and no place names another task or a worker of no client.
pub fn places_tasks(tasks: &[TaskId], clients: &[Client], a: &Assignment) -> bool
    ensures { result ≡ places_tasks tasks.now (by_client clients.now a.now.active)
        (by_client clients.now a.now.standby) (by_client clients.now a.now.warmup) }
{
    let active = a.active.as_slice();
    if !are_each_once(tasks, clients, active) {
        return false;
    }
    if !are_known(tasks, clients, active) {
        return false;
    }
    if !are_known(tasks, clients, a.standby.as_slice()) {
        return false;
    }
    are_known(tasks, clients, a.warmup.as_slice())
}

/// Point 2: where some client is warm for a task, its active client is.
pub fn runs_warm(clients: &[Client], held: &[Held], most: u64, active: &[(TaskId, u8)]) -> bool
    ensures { result ≡ runs_warm clients.now held.now most (by_client clients.now active.now) }
{
    for p in active {
        if !may_run(clients, held, most, home_of(clients, p.1), p.0) {
            return false;
        }
    }
    true
}

// No client with two active tasks less than that of the task may run it.
fn stays(clients: &[Client], held: &[Held], most: u64, loads: &Loads, p: (TaskId, u16)) -> bool
    requires { p.1 ≤ 256 }
    ensures { result ≡ stays clients.now held.now most loads.now p }
{
    for b in clients {
        let other = u16::from(b.instance);
        if loads.outweighs(p.1, other) && may_run(clients, held, most, other, p.0) {
            return false;
        }
    }
    true
}

/// Point 3: where a client has two active tasks more than another, it has none that the other may run.
pub fn is_balanced(clients: &[Client], held: &[Held], most: u64, active: &[(TaskId, u8)]) -> bool
    ensures { result ≡ is_balanced clients.now held.now most (by_client clients.now active.now) }
{
    let loads = Loads::new(clients, active);
    for p in active {
        if !stays(clients, held, most, &loads, (p.0, home_of(clients, p.1))) {
            return false;
        }
    }
    true
}

// No client has the task twice, as its active one or as a standby.
fn is_spread(clients: &[Client], task: TaskId, a: &Assignment) -> bool
    ensures { result ≡ is_spread clients.now task (by_client clients.now a.now.active)
        (by_client clients.now a.now.standby) }
{
    for c in clients {
        let of_active = copies_at(clients, a.active.as_slice(), task, u16::from(c.instance));
        let of_standby = copies_at(clients, a.standby.as_slice(), task, u16::from(c.instance));
        if of_active > 1 || of_standby > 1 || of_active + of_standby > 1 {
            return false;
        }
    }
    true
}

/// How many standbys a task gets: the wanted number, or one for each other client where there are fewer.
pub fn standby_count(clients: &[Client], wanted: u8) -> usize
    ensures { result ≡ min wanted (length clients.now - 1) }
{
    let others = clients.len().saturating_sub(1);
    if (wanted as usize) < others {
        wanted as usize
    } else {
        others
    }
}

/// Point 4: each task has so many standbys, at distinct clients other than the active one's.
pub fn has_standbys(tasks: &[TaskId], clients: &[Client], wanted: u8, a: &Assignment) -> bool
    ensures { result ≡ has_standbys tasks.now clients.now wanted
        (by_client clients.now a.now.active)
        (by_client clients.now a.now.standby) }
{
    let count = standby_count(clients, wanted);
    for t in tasks {
        if !(times_of(clients, a.standby.as_slice(), *t) == count && is_spread(clients, *t, a)) {
            return false;
        }
    }
    true
}

// The client has the task once, in all three lists together.
fn stands_alone(clients: &[Client], a: &Assignment, task: TaskId, instance: u16) -> bool
    ensures { result ≡ ((copies task instance (by_client clients.now a.now.active)
        + copies task instance (by_client clients.now a.now.standby)
        + copies task instance (by_client clients.now a.now.warmup)) == 1) }
{
    let of_active = copies_at(clients, a.active.as_slice(), task, instance);
    let of_standby = copies_at(clients, a.standby.as_slice(), task, instance);
    let of_warmup = copies_at(clients, a.warmup.as_slice(), task, instance);
    of_active <= 1 && of_standby <= 1 && of_warmup <= 1 && of_active + of_standby + of_warmup == 1
}

// Each warmup is at a client that isn't warm for the task and has nothing else of it.
fn are_cold(clients: &[Client], held: &[Held], most: u64, a: &Assignment) -> bool
    ensures { result ≡ all_cold held.now most (by_client clients.now a.now.active)
        (by_client clients.now a.now.standby) (by_client clients.now a.now.warmup) }
{
    for p in a.warmup.as_slice() {
        let instance = home_of(clients, p.1);
        if is_warm(held, most, instance, p.0) || !stands_alone(clients, a, p.0, instance) {
            return false;
        }
    }
    true
}

/// Point 5: there are at most so many warmups, each at a client that isn't warm for the task and has nothing else of it.
#[tactic(auto, using(crate::proofs::Moves::by_client_length))]
pub fn warms_up(clients: &[Client], held: &[Held], wants: &Wants, a: &Assignment) -> bool
    ensures { result ≡ warms_up held.now wants.now.lag wants.now.warmups
        (by_client clients.now a.now.active) (by_client clients.now a.now.standby)
        (by_client clients.now a.now.warmup) }
{
    a.warmup.len() <= wants.warmups as usize && are_cold(clients, held, wants.lag, a)
}

// Each client with two active tasks less than that of the task has a standby or a warmup of it.
fn is_prepared(clients: &[Client], a: &Assignment, loads: &Loads, p: (TaskId, u16)) -> bool
    requires { p.1 ≤ 256 }
    ensures { result ≡ is_prepared clients.now loads.now (by_client clients.now a.now.standby)
        (by_client clients.now a.now.warmup) p }
{
    for b in clients {
        let other = u16::from(b.instance);
        if loads.outweighs(p.1, other)
            && copies_at(clients, a.standby.as_slice(), p.0, other) == 0
            && copies_at(clients, a.warmup.as_slice(), p.0, other) == 0
        {
            return false;
        }
    }
    true
}

fn are_prepared(clients: &[Client], a: &Assignment) -> bool
    ensures { result ≡ all_prepared clients.now (by_client clients.now a.now.active)
        (by_client clients.now a.now.standby) (by_client clients.now a.now.warmup) }
{
    let loads = Loads::new(clients, a.active.as_slice());
    for p in a.active.as_slice() {
        if !is_prepared(clients, a, &loads, (p.0, home_of(clients, p.1))) {
            return false;
        }
    }
    true
}

/// Point 6: where there are fewer warmups than wanted, each active task is prepared wherever balance would have it.
#[tactic(auto, using(crate::proofs::Moves::by_client_length))]
pub fn prepares(clients: &[Client], wanted: u8, a: &Assignment) -> bool
    ensures { result ≡ prepares clients.now wanted (by_client clients.now a.now.active)
        (by_client clients.now a.now.standby) (by_client clients.now a.now.warmup) }
{
    wanted as usize <= a.warmup.len() || are_prepared(clients, a)
}

// A worker has at most one active task more than each of these.
fn is_not_above(active: &[(TaskId, u8)], workers: &[u8], worker: u8) -> bool
    ensures { result ≡ list_all (λ v. nat_le (load worker active.now) (load v active.now + 1))
        workers.now }
{
    let n = load_of(active, worker);
    for v in workers {
        let m = load_of(active, *v);
        if n > m && n - m > 1 {
            return false;
        }
    }
    true
}

// The active counts of two of these workers differ by at most 1.
fn is_even(active: &[(TaskId, u8)], workers: &[u8]) -> bool
    ensures { result ≡ is_even active.now workers.now }
{
    for w in workers {
        if !is_not_above(active, workers, *w) {
            return false;
        }
    }
    true
}

/// Point 7: the active counts of two workers of one client differ by at most 1.
pub fn are_even(clients: &[Client], active: &[(TaskId, u8)]) -> bool
    ensures { result ≡ all_even clients.now active.now }
{
    for c in clients {
        if !is_even(active, c.workers.as_slice()) {
            return false;
        }
    }
    true
}
