//! That threads may share a topology, as a fact: it is put together from those of what it holds.
ghost use Rattle.std.specs.Thread.{IsSync};
ghost use Rattle.ks_topo.specs.contracts.built.Topology as topology;

use ks_plan::share_node;

/// Threads may share a topology, as a fact for the calls that follow; does nothing.
pub fn share_topology()
    ensures { IsSync topology.the_row }
{
    share_node();
}
