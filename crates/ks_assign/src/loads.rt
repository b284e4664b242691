//! How many tasks each client has, counted once.
ghost use Rattle.std.specs.Prelude.{◌≡◌, ◌≤◌, ℕ, ◌<◌, length, slice_index};
ghost use Rattle.ks_assign.specs.Placement.{by_client, load, outweighs};
ghost use Rattle.ks_assign.specs.Steps.{Counts};

use crate::clients::Client;
use crate::counting::home_of;
use ks_record::TaskId;
use std::marker::Model;

/// The places of a list by clients, with the number of those at each client at hand.
#[derive(Drop)]
pub struct Loads<'a> {
    clients: &'a [Client],
    places: &'a [(TaskId, u8)],
    // by instance; the last is that of no client
    counts: [usize; 257],
}

impl<'a> Model for Loads<'a> {
    ghost use Rattle.ks_assign.specs.Placement.{Places, by_client};
    ghost use Rattle.ks_assign.specs.Steps.{Counts};

    ghost Value = { Places };

    ghost view = { λ s. by_client s.clients.now s.places.now };

    ghost invariant = { λ s. Counts s.counts (by_client s.clients.now s.places.now) };
}

// Counts of nothing.
fn no_counts() -> [usize; 257]
    ensures size { length result ≡ 257 }
    ensures zero { (i : ℕ) → i < 257 → slice_index result i ≡ 0 }
{
    [0; 257]
}

// How many tasks each client has, by instance.
fn count(clients: &[Client], places: &[(TaskId, u8)]) -> [usize; 257]
    ensures { Counts result (by_client clients.now places.now) }
{
    let mut counts = no_counts();
    for p in places {
        counts[home_of(clients, p.1) as usize] += 1;
    }
    counts
}

impl<'a> Loads<'a> {
    /// The loads of these clients under these places.
    pub fn new(clients: &'a [Client], places: &'a [(TaskId, u8)]) -> Loads<'a>
        ensures { result ≡ by_client clients.now places.now }
    {
        let counts = count(clients, places);
        Loads {
            clients,
            places,
            counts,
        }
    }

    /// How many tasks a client has.
    pub fn load(&self, instance: u16) -> usize
        requires { instance ≤ 256 }
        ensures { result ≡ load instance self.now }
    {
        self.counts[instance as usize]
    }

    /// Whether client `a` has at least two more tasks than client `b`.
    pub fn outweighs(&self, a: u16, b: u16) -> bool
        requires a { a ≤ 256 }
        requires b { b ≤ 256 }
        ensures { result ≡ outweighs a b self.now }
    {
        let more = self.load(a);
        let less = self.load(b);
        more >= less && more - less >= 2
    }
}
