//! The tasks of a client over its workers.
ghost use Rattle.std.specs.Prelude.{◌≡◌, ◌<◌, true, nat_le, length, IfOk};
ghost use Rattle.std.specs.List.{list_all};
ghost use Rattle.ks_assign.specs.Placement.{has_worker, home, by_client, load, all_even, AreClients};
ghost use Rattle.ks_assign.specs.Steps.{all_least};

use crate::clients::Client;
use crate::counting::{is_worker, load_of};
use ks_record::TaskId;
use std::alloc::{AllocError, Global};

// The first worker with the fewest tasks.
fn least_worker(workers: &[u8], placed: &[(TaskId, u8)]) -> u8
    requires { 0 < length workers.now }
    ensures has { has_worker result workers.now ≡ true }
    ensures least { list_all (λ v. nat_le (load result placed.now) (load v placed.now)) workers.now
        ≡ true }
{
    let mut best = workers[0];
    let mut least = load_of(placed, best);
    for v in workers {
        let n = load_of(placed, *v);
        if n < least {
            best = *v;
            least = n;
        }
    }
    best
}

// The worker of the same client with the fewest tasks.
fn even_worker(clients: &[Client], placed: &[(TaskId, u8)], worker: u8) -> u8
    requires { AreClients clients.now }
    ensures home { home clients.now result ≡ home clients.now worker }
    ensures least { all_least clients.now result placed.now ≡ true }
{
    for c in clients {
        if is_worker(c.workers.as_slice(), worker) {
            return least_worker(c.workers.as_slice(), placed);
        }
    }
    worker
}

/// Each task stays at its client, and each client's tasks are spread evenly over its workers.
pub fn spread(
    alloc: Global,
    clients: &[Client],
    places: &[(TaskId, u8)],
) -> Result<Vec<(TaskId, u8)>, AllocError>
    requires { AreClients clients.now }
    ensures clients { IfOk result (λ v. by_client clients.now v.items
        ≡ by_client clients.now places.now) }
    ensures even { IfOk result (λ v. all_even clients.now v.items ≡ true) }
{
    let mut made = Vec::new(alloc);
    for p in places {
        let worker = even_worker(clients, &made, p.1);
        made.push((p.0, worker))?;
    }
    Ok(made)
}
