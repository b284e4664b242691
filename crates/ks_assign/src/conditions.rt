//! The conditions of `assign`, as tests. Nothing here takes memory.
ghost use Rattle.std.specs.Prelude.{◌≡◌, ◌↔◌, not, nat_lt, length, IsTrue};
ghost use Rattle.std.specs.List.{list_all};
ghost use Rattle.ks_assign.specs.Placement.{employs, workers_apart, has_instance, instances_apart, tasks_apart, AreClients};

use crate::clients::Client;
use crate::counting::{is_known, is_worker};
use ks_record::TaskId;

// Some client has the worker.
fn employs(clients: &[Client], worker: u8) -> bool
    ensures { result ≡ employs worker clients.now }
{
    for c in clients {
        if is_worker(c.workers.as_slice(), worker) {
            return true;
        }
    }
    false
}

// No client has one of these workers.
fn are_free(clients: &[Client], workers: &[u8]) -> bool
    ensures { result ≡ list_all (λ w. not (employs w clients.now)) workers.now }
{
    for w in workers {
        if employs(clients, *w) {
            return false;
        }
    }
    true
}

// No two clients have a worker in common.
fn are_workers_apart(clients: &[Client]) -> bool
    ensures { result ≡ workers_apart clients.now }
{
    let mut rest = clients;
    while let [c, more @ ..] = rest {
        if !are_free(more, c.workers.as_slice()) {
            return false;
        }
        rest = more;
    }
    true
}

// Some client is that of the instance.
fn has_instance(clients: &[Client], instance: u8) -> bool
    ensures { result ≡ has_instance instance clients.now }
{
    for c in clients {
        if c.instance == instance {
            return true;
        }
    }
    false
}

// No two clients are of one instance.
fn are_instances_apart(clients: &[Client]) -> bool
    ensures { result ≡ instances_apart clients.now }
{
    let mut rest = clients;
    while let [c, more @ ..] = rest {
        if has_instance(more, c.instance) {
            return false;
        }
        rest = more;
    }
    true
}

// Each client has a worker.
fn are_manned(clients: &[Client]) -> bool
    ensures { result ≡ list_all (λ c. nat_lt 0 (length c.workers)) clients.now }
{
    for c in clients {
        if c.workers.len() == 0 {
            return false;
        }
    }
    true
}

/// Whether there is a client, each client has a worker, no two have a worker in common, and no two are of one instance.
pub fn are_clients(clients: &[Client]) -> bool
    ensures { IsTrue result ↔ AreClients clients.now }
{
    if clients.is_empty() {
        return false;
    }
    if !are_manned(clients) {
        return false;
    }
    if !are_workers_apart(clients) {
        return false;
    }
    are_instances_apart(clients)
}

/// Whether no task stands there twice.
pub fn are_tasks_apart(tasks: &[TaskId]) -> bool
    ensures { result ≡ tasks_apart tasks.now }
{
    let mut rest = tasks;
    while let [task, more @ ..] = rest {
        if is_known(more, *task) {
            return false;
        }
        rest = more;
    }
    true
}
