//! A client for each task.
ghost use Rattle.std.specs.Prelude.{◌≡◌, ◌<◌, ◌≤◌, true, length, IfOk, slice_index_or};
ghost use Rattle.ks_assign.specs.Placement.{home, by_client, may_run, AreClients};
ghost use Rattle.ks_assign.specs.Steps.{held_of, IsPlan};

use crate::clients::{Client, Held};
use crate::counting::home_of;
use crate::lags::{is_warm, may_run};
use crate::loads::Loads;
use ks_record::TaskId;
use std::alloc::{AllocError, Global};

/// The first worker of a client, which stands for the client until tasks are spread.
pub fn first_worker(client: &Client) -> u8
    requires { 0 < length client.now.workers }
    ensures { result ≡ slice_index_or client.now.workers 0 result }
{
    client.workers.as_slice()[0]
}

// What is told of one task.
fn held_of(alloc: Global, held: &[Held], task: TaskId) -> Result<Vec<Held>, AllocError>
    ensures { IfOk result (λ v. v.items ≡ held_of task held.now) }
{
    let mut own = Vec::new(alloc);
    for h in held {
        if h.task.is(task) {
            own.push(*h)?;
        }
    }
    Ok(own)
}

// A worker of a client that may run the task: the first client that is warm for it, else the first client.
fn place_for(clients: &[Client], held: &[Held], most: u64, task: TaskId) -> u8
    requires { AreClients clients.now }
    ensures runs { may_run clients.now held.now most (home clients.now result) task ≡ true }
    ensures home { home clients.now result < 256 }
{
    for c in clients {
        if is_warm(held, most, u16::from(c.instance), task) {
            return first_worker(c);
        }
    }
    let _first = u16::from(clients[0].instance);
    first_worker(&clients[0])
}

// A worker of the client with the fewest tasks among those that may run the task.
fn lightest_for(clients: &[Client], held: &[Held], most: u64, loads: &Loads, task: TaskId) -> u8
    requires { AreClients clients.now }
    ensures runs { may_run clients.now held.now most (home clients.now result) task ≡ true }
    ensures home { home clients.now result < 256 }
{
    let mut best = place_for(clients, held, most, task);
    let mut least = loads.load(home_of(clients, best));
    for c in clients {
        let n = loads.load(u16::from(c.instance));
        if n >= least {
            continue;
        }
        if !may_run(clients, held, most, u16::from(c.instance), task) {
            continue;
        }
        best = first_worker(c);
        least = n;
    }
    best
}

/// Each task at a client that may run it, in the order of the tasks.
pub fn place(
    alloc: Global,
    tasks: &[TaskId],
    clients: &[Client],
    held: &[Held],
    most: u64,
) -> Result<Vec<(TaskId, u8)>, AllocError>
    requires { AreClients clients.now }
    ensures { IfOk result (λ v. IsPlan tasks.now clients.now held.now most v.items) }
{
    let mut places = Vec::new(alloc);
    for t in tasks {
        let own = held_of(alloc, held, *t)?;
        let worker = lightest_for(clients, &own, most, &Loads::new(clients, &places), *t);
        places.push((*t, worker))?;
    }
    Ok(places)
}
