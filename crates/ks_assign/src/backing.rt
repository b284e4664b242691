//! Standbys and warmups.
ghost use Rattle.std.specs.Prelude.{◌≡◌, ◌-◌, ◌≤◌, ◌++◌, true, min, take, length, IfOk, OnOk};
ghost use Rattle.ks_assign.specs.Placement.{by_client, AreClients};
ghost use Rattle.ks_assign.specs.Steps.{all_home, others, all_others, wanted, all_wanted};

use crate::clients::Client;
use crate::counting::{copies_at, home_of};
use crate::loads::Loads;
use crate::placing::first_worker;
use crate::points::standby_count;
use ks_record::TaskId;
use std::alloc::{AllocError, Global};

// Adds the task at each client but its own, at most so many times.
fn add_others(
    clients: &[Client],
    out: &mut Vec<(TaskId, u8)>,
    p: (TaskId, u16),
    count: usize,
) -> Result<(), AllocError>
    requires { AreClients clients.now }
    ensures ok { OnOk result (by_client clients.now out.new.items
        ≡ by_client clients.now out.old.items ++ take count (others clients.now p.1 p.0)) }
    ensures homes { OnOk result (all_home clients.now out.old.items ≡ true
        → all_home clients.now out.new.items ≡ true) }
{
    let mut left = count;
    for c in clients {
        if u16::from(c.instance) == p.1 {
            continue;
        }
        if left == 0 {
            continue;
        }
        out.push((p.0, first_worker(c)))?;
        left -= 1;
    }
    Ok(())
}

/// The standbys of active tasks: each at the first other clients, so many as are wanted and can be.
pub fn standbys(
    alloc: Global,
    clients: &[Client],
    wanted: u8,
    active: &[(TaskId, u8)],
) -> Result<Vec<(TaskId, u8)>, AllocError>
    requires { AreClients clients.now }
    ensures ok { IfOk result (λ v. by_client clients.now v.items
        ≡ all_others clients.now (min wanted (length clients.now - 1))
        (by_client clients.now active.now)) }
    ensures homes { IfOk result (λ v. all_home clients.now v.items ≡ true) }
{
    let count = standby_count(clients, wanted);
    let mut out = Vec::new(alloc);
    for p in active {
        add_others(clients, &mut out, (p.0, home_of(clients, p.1)), count)?;
    }
    Ok(out)
}

// Adds the task at each client that has at least two tasks less than its own and no standby of it.
fn add_wanted(
    clients: &[Client],
    out: &mut Vec<(TaskId, u8)>,
    loads: &Loads,
    standby: &[(TaskId, u8)],
    p: (TaskId, u16),
) -> Result<(), AllocError>
    requires clients { AreClients clients.now }
    requires home { p.1 ≤ 256 }
    ensures ok { OnOk result (by_client clients.now out.new.items
        ≡ by_client clients.now out.old.items
        ++ wanted clients.now loads.now (by_client clients.now standby.now) p) }
    ensures homes { OnOk result (all_home clients.now out.old.items ≡ true
        → all_home clients.now out.new.items ≡ true) }
{
    for c in clients {
        if !loads.outweighs(p.1, u16::from(c.instance)) {
            continue;
        }
        if copies_at(clients, standby, p.0, u16::from(c.instance)) != 0 {
            continue;
        }
        out.push((p.0, first_worker(c)))?;
    }
    Ok(())
}

/// Warmups of active tasks wherever balance would have them, before their number is cut.
pub fn candidates(
    alloc: Global,
    clients: &[Client],
    active: &[(TaskId, u8)],
    standby: &[(TaskId, u8)],
) -> Result<Vec<(TaskId, u8)>, AllocError>
    requires { AreClients clients.now }
    ensures ok { IfOk result (λ v. by_client clients.now v.items ≡ all_wanted clients.now
        (by_client clients.now active.now) (by_client clients.now standby.now)
        (by_client clients.now active.now)) }
    ensures homes { IfOk result (λ v. all_home clients.now v.items ≡ true) }
{
    let loads = Loads::new(clients, active);
    let mut out = Vec::new(alloc);
    for p in active {
        add_wanted(
            clients,
            &mut out,
            &loads,
            standby,
            (p.0, home_of(clients, p.1)),
        )?;
    }
    Ok(out)
}
