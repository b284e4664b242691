//! The clients of a group.
ghost use Rattle.std.specs.Prelude.{◌≡◌, ◌≤◌, IfOk};
ghost use Rattle.ks_assign_group.specs.Groups.{is_at, workers_at, clients_of};

use ks_assign::Client;
use ks_record::Seq;
use std::alloc::{AllocError, Global};

// The greatest number of a worker.
const LAST_WORKER: u8 = 16;

// Whether a worker is one of an instance that has so many.
fn is_at(threads: u8, instance: u8, w: u8) -> bool
    requires threads { 1 ≤ threads }
    ensures { result ≡ is_at threads instance w }
{
    w <= LAST_WORKER && w / threads == instance
}

// The members of an instance.
fn workers_at(
    alloc: Global,
    threads: u8,
    instance: u8,
    members: &[u8],
) -> Result<Vec<u8>, AllocError>
    requires threads { 1 ≤ threads }
    ensures { IfOk result (λ v. v.items ≡ workers_at threads instance members.now) }
{
    let mut workers = Vec::new(alloc);
    for w in members {
        if is_at(threads, instance, *w) {
            workers.push(*w)?;
        }
    }
    Ok(workers)
}

/// The clients of a group with these members: of each instance that has some, in the order of their numbers.
pub(crate) fn clients_of(
    alloc: Global,
    threads: u8,
    members: &[u8],
) -> Result<Vec<Client>, AllocError>
    requires threads { 1 ≤ threads }
    ensures { IfOk result (λ v. v.items ≡ clients_of threads members.now) }
{
    let mut clients = Vec::new(alloc);
    for instance in 0..17 {
        let workers = workers_at(alloc, threads, instance, members)?;
        if !workers.is_empty() {
            clients.push(Client {
                instance,
                workers: Seq::of(workers),
            })?;
        }
    }
    Ok(clients)
}
