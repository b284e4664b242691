//! The inputs of a worker's tasks, in their order.
ghost use Rattle.std.specs.Prelude.{◌≡◌, ◌++◌, map, IfOk, OnOk};
ghost use Rattle.ks_plan.specs.Infos.{input_numbers};
ghost use Rattle.ks_topo.specs.Topologies.{plan_in};
ghost use Rattle.ks_worker_acts.specs.declared.places.InputPlace.{InputPlace};
ghost use Rattle.ks_worker_acts.specs.Inputs.{places_at, places_from};

use ks_task::Task;
use ks_topo::Topology;
use ks_worker_state::inputs_in;
use std::alloc::{AllocError, Global};

/// An input of one of a worker's tasks.
#[derive(Clone, Copy, PartialEq, Eq)]
pub struct InputPlace {
    /// The task's place among the worker's tasks.
    pub index: usize,
    pub topic: u16,
}

// Adds the inputs of one task.
fn push_places(places: &mut Vec<InputPlace>, index: usize, topics: &[u16]) -> Result<(), AllocError>
    ensures { OnOk result (places.new.items ≡ places.old.items ++ places_at index topics.now) }
{
    for topic in topics {
        places.push(InputPlace {
            index,
            topic: *topic,
        })?;
    }
    Ok(())
}

/// The inputs of these tasks, in order of task and topic.
pub fn places_of(
    alloc: Global,
    topology: &Topology,
    tasks: &[Task],
) -> Result<Vec<InputPlace>, AllocError>
    ensures { IfOk result (λ v. v.items
        ≡ places_from (input_numbers (plan_in topology.now)) 0 tasks.now) }
{
    let mut places = Vec::with_capacity(alloc, tasks.len())?;
    for i in 0..tasks.len() {
        let task = &tasks[i];
        let topics = inputs_in(topology, task.id().sub);
        push_places(&mut places, i, topics)?;
    }
    Ok(places)
}
