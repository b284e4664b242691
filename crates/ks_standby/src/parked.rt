//! A shelf of replicas.
ghost use Rattle.std.specs.Prelude.{◌≡◌, ℕ, Some, None, OnOk, IfErr, is_some};
ghost use Rattle.ks_record.specs.declared.record.TaskId.{TaskId as Task};
ghost use Rattle.ks_standby.specs.Shelf.{is_here, place_in, parked, with_replica, HasPlace};

use crate::replica::Replica;
use ks_record::TaskId;
use std::alloc::{AllocError, AllocFailed, Global};
use std::mem;

/// A place of the shelf.
#[derive(Drop)]
struct Place {
    instance: u8,
    task: TaskId,
    replica: Option<Replica>,
}

/// A finite map from pairs of instance and task to replicas: where the workers of an instance leave what another may go on with.
/// A replica stands under its own task. A place that was made stays.
#[derive(Drop)]
pub struct Parked {
    places: Vec<Place>,
}

fn is_at(place: &Place, instance: u8, task: TaskId) -> bool
    ensures { result ≡ is_here instance task place.now }
{
    instance == place.instance && task.is(place.task)
}

// The number of the first place of a pair; past the last where it has none.
fn find(places: &[Place], instance: u8, task: TaskId) -> usize
    ensures { result ≡ place_in instance task places.now }
{
    let mut at = 0;
    let mut rest = places;
    while let [place, more @ ..] = rest {
        if is_at(place, instance, task) {
            return at;
        }
        rest = more;
        at += 1;
    }
    at
}

fn fill(place: &mut Place, replica: Option<Replica>) -> Option<Replica>
    ensures old { result ≡ place.old.replica }
    ensures new { place.new ≡ record place.old { replica = replica } }
{
    mem::replace(&mut place.replica, replica)
}

impl Parked {
    /// An empty shelf. Takes no memory.
    pub fn new(alloc: Global) -> Parked
        ensures { (i : ℕ) (t : Task) → parked result i t ≡ None }
    {
        Parked {
            places: Vec::new(alloc),
        }
    }

    /// Takes a replica from the shelf; none exactly where none is parked there. Takes no memory.
    pub fn take(&mut self, instance: u8, task: TaskId) -> Option<Replica>
        ensures gives { result ≡ parked self.old instance task }
        ensures rest { (i : ℕ) (t : Task) → parked self.new i t
            ≡ with_replica instance task None (parked self.old) i t }
    {
        let at = find(&self.places, instance, task);
        if at < self.places.len() {
            fill(&mut self.places[at], None)
        } else {
            None
        }
    }

    /// Puts a replica on the shelf, under its own task, in place of one that stood there. On want of memory the replica comes back, and
    /// the shelf is as before.
    pub fn put(&mut self, instance: u8, replica: Replica) -> Result<(), AllocFailed<Replica>>
        ensures ok { OnOk result ((i : ℕ) (t : Task) → parked self.new i t
            ≡ with_replica instance replica.id (Some replica) (parked self.old) i t) }
        ensures err { IfErr result (λ e. (e.value ≡ replica)
            × (self.new.places.items ≡ self.old.places.items)) }
    {
        let task = replica.id();
        let at = find(&self.places, instance, task);
        if at < self.places.len() {
            drop(fill(&mut self.places[at], Some(replica)));
            return Ok(());
        }
        if self.places.reserve(1).is_err() {
            return Err(AllocFailed { value: replica });
        }
        self.places.push_reserved(Place {
            instance,
            task,
            replica: Some(replica),
        });
        Ok(())
    }

    /// Whether a replica is parked there. Takes no memory.
    pub fn has(&self, instance: u8, task: TaskId) -> bool
        ensures { result ≡ is_some (parked self.now instance task) }
    {
        let mut rest = self.places.as_slice();
        while let [place, more @ ..] = rest {
            if is_at(place, instance, task) {
                return place.replica.is_some();
            }
            rest = more;
        }
        false
    }

    /// Makes a place for a replica, so that it can be set without memory; what is parked stays the same.
    pub fn make_place(&mut self, instance: u8, task: TaskId) -> Result<(), AllocError>
        ensures ok { OnOk result (HasPlace self.new instance task) }
        ensures same { (i : ℕ) (t : Task) → parked self.new i t ≡ parked self.old i t }
    {
        let at = find(&self.places, instance, task);
        if at < self.places.len() {
            return Ok(());
        }
        self.places.push(Place {
            instance,
            task,
            replica: None,
        })?;
        Ok(())
    }

    /// Sets a replica in its place, in place of one that stood there. Takes no memory.
    pub fn set(&mut self, instance: u8, replica: Replica)
        requires { HasPlace self.old instance replica.id }
        ensures { (i : ℕ) (t : Task) → parked self.new i t
            ≡ with_replica instance replica.id (Some replica) (parked self.old) i t }
    {
        let at = find(&self.places, instance, replica.id());
        drop(fill(&mut self.places[at], Some(replica)));
    }
}
