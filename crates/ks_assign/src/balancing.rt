//! Moves of tasks until no client has two more than another that may run one of them.
ghost use Rattle.std.specs.Prelude.{◌≡◌, ◌≤◌, true, List, MatchOption};
ghost use Rattle.ks_record.specs.declared.record.TaskId.{TaskId};
ghost use Rattle.ks_assign.specs.Placement.{by_client, stays, is_balanced, AreClients};
ghost use Rattle.ks_assign.specs.Steps.{IsBetter, IsMove, IsPlan};

use crate::clients::{Client, Held};
use crate::counting::home_of;
use crate::lags::may_run;
use crate::loads::Loads;
use crate::placing::first_worker;
use ks_record::TaskId;

// A worker of a client that has at least two tasks less than that of the task, and may run it.
fn better_for(
    clients: &[Client],
    held: &[Held],
    most: u64,
    loads: &Loads,
    p: (TaskId, u16),
) -> Option<u8>
    requires clients { AreClients clients.now }
    requires home { p.1 ≤ 256 }
    ensures { MatchOption result (stays clients.now held.now most loads.now p ≡ true)
        (λ w. IsBetter clients.now held.now most loads.now p.0 p.1 w) }
{
    for b in clients {
        let other = u16::from(b.instance);
        if loads.outweighs(p.1, other) && may_run(clients, held, most, other, p.0) {
            return Some(first_worker(b));
        }
    }
    None
}

// A task, by its index, and a better place for it.
fn find_move(
    clients: &[Client],
    held: &[Held],
    most: u64,
    active: &[(TaskId, u8)],
) -> Option<(usize, u8)>
    requires { AreClients clients.now }
    ensures { MatchOption result
        (is_balanced clients.now held.now most (by_client clients.now active.now) ≡ true)
        (λ m. IsMove clients.now held.now most active.now m.0 m.1) }
{
    let loads = Loads::new(clients, active);
    for (i, p) in active.iter().enumerate() {
        match better_for(clients, held, most, &loads, (p.0, home_of(clients, p.1))) {
            Some(w) => {
                return Some((i, w));
            }
            None => {}
        }
    }
    None
}

/// Moves tasks until none has a better place. Each move leaves fewer pairs of tasks at one client.
pub fn balance(clients: &[Client], held: &[Held], most: u64, active: &mut [(TaskId, u8)])
    requires { AreClients clients.now }
    ensures balanced { is_balanced clients.now held.now most (by_client clients.now active.new)
        ≡ true }
    ensures plan { (tasks : List TaskId) → IsPlan tasks clients.now held.now most active.old
        → IsPlan tasks clients.now held.now most active.new }
{
    while let Some((i, w)) = find_move(clients, held, most, active) {
        active[i].1 = w;
    }
}
