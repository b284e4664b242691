//! Of the replicas of a task the furthest is taken out of all that are left.
ghost use Rattle.std.specs.Prelude.{◌<◌, length, IfSome};
ghost use Rattle.ks_settle.specs.Picking.{StandsAt, TakesOf};

use ks_record::TaskId;
use ks_standby::Replica;

// Whether one of the replicas is found, and is as far as this one.
fn is_as_far(replicas: &[Replica], found: Option<usize>, replica: &Replica) -> bool {
    let Some(place) = found else {
        return false;
    };
    match replicas.get(place) {
        Some(other) => replica.sum() <= other.sum(),
        None => false,
    }
}

// The place that was found, or this one where it has a replica of the task that is further.
fn further(replicas: &[Replica], task: TaskId, found: Option<usize>, place: usize) -> Option<usize>
    requires within { place < length replicas.now }
    requires found { IfSome found (StandsAt replicas.now task) }
    ensures { IfSome result (StandsAt replicas.now task) }
{
    let replica = &replicas[place];
    if task.is(replica.id()) {
        if !is_as_far(replicas, found, replica) {
            return Some(place);
        }
    }
    found
}

// Where the furthest replica of a task stands.
fn place_of(replicas: &[Replica], task: TaskId) -> Option<usize>
    ensures { IfSome result (StandsAt replicas.now task) }
{
    let mut found = None;
    for i in 0..replicas.len() {
        found = further(replicas, task, found, i);
    }
    found
}

/// The furthest replica of a task, taken out of these, where there is one.
pub fn take_furthest(replicas: &mut Vec<Replica>, task: TaskId) -> Option<Replica>
    ensures { TakesOf task replicas.old.items result replicas.new.items }
{
    let place = place_of(replicas.as_slice(), task);
    match place {
        Some(i) => Some(replicas.remove(i)),
        None => None,
    }
}
