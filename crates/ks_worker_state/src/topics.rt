//! The topics of a topology's tasks.
ghost use Rattle.std.specs.Prelude.{◌≡◌};
ghost use Rattle.ks_plan.specs.Infos.{input_numbers, changelog_numbers};
ghost use Rattle.ks_topo.specs.Topologies.{plan_in};

use ks_topo::Topology;

/// The changelogs of a subtopology's tasks.
pub fn changelogs_in(topology: &Topology, sub: u8) -> &[u16]
    ensures { result.now ≡ changelog_numbers (plan_in topology.now) sub }
{
    let _nodes = topology.nodes();
    topology.changelogs(sub)
}

/// The inputs of a subtopology's tasks.
pub fn inputs_in(topology: &Topology, sub: u8) -> &[u16]
    ensures { result.now ≡ input_numbers (plan_in topology.now) sub }
{
    let _nodes = topology.nodes();
    topology.inputs(sub)
}
