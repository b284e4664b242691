//! Where tasks stand, and how often. Nothing here takes memory.
ghost use Rattle.std.specs.Prelude.{◌≡◌, ◌≤◌, length};
ghost use Rattle.ks_assign.specs.Placement.{has_task, has_worker, home, by_client, load, times, copies};

use crate::clients::Client;
use ks_record::TaskId;

// No client's instance.
const NO_CLIENT: u16 = 256;

/// Whether a task is one of these.
pub fn is_known(tasks: &[TaskId], task: TaskId) -> bool
    ensures { result ≡ has_task task tasks.now }
{
    for u in tasks {
        if u.is(task) {
            return true;
        }
    }
    false
}

/// Whether a worker is one of these.
pub fn is_worker(workers: &[u8], worker: u8) -> bool
    ensures { result ≡ has_worker worker workers.now }
{
    for v in workers {
        if *v == worker {
            return true;
        }
    }
    false
}

/// The instance of the client that has a worker; 256 where none has.
pub fn home_of(clients: &[Client], worker: u8) -> u16
    ensures is { result ≡ home clients.now worker }
    ensures small { result ≤ 256 }
{
    for client in clients {
        if is_worker(client.workers.as_slice(), worker) {
            return u16::from(client.instance);
        }
    }
    NO_CLIENT
}

/// How many tasks stand at a worker. Takes no memory.
pub fn load_of(places: &[(TaskId, u8)], worker: u8) -> usize
    ensures is { result ≡ load worker places.now }
    ensures few { result ≤ length places.now }
{
    let mut n: usize = 0;
    for p in places {
        if p.1 == worker {
            n += 1;
        }
    }
    n
}

/// How often a task stands in a list.
pub fn times_of(clients: &[Client], places: &[(TaskId, u8)], task: TaskId) -> usize
    ensures is { result ≡ times task (by_client clients.now places.now) }
    ensures few { result ≤ length places.now }
{
    let mut n: usize = 0;
    for p in places {
        if p.0.is(task) {
            n += 1;
        }
    }
    n
}

/// How often a task stands at a client.
pub fn copies_at(clients: &[Client], places: &[(TaskId, u8)], task: TaskId, instance: u16) -> usize
    ensures is { result ≡ copies task instance (by_client clients.now places.now) }
    ensures few { result ≤ length places.now }
{
    let mut n: usize = 0;
    for p in places {
        if p.0.is(task) && home_of(clients, p.1) == instance {
            n += 1;
        }
    }
    n
}
