//! The topology that a run runs.
ghost use Rattle.std.specs.Prelude.{◌≡◌, IfOk};
ghost use Rattle.ks_plan.specs.Drafts.{draft_view};
ghost use Rattle.ks_topo.specs.Topologies.{Builds};

use ks_edge::draw_seed;
use ks_topo::{Draft, TopoFault, Topology};
use std::alloc::{AllocError, Global};
use std::random::RandomSource;

/// The topology of a draft, whose tasks' stores begin the hashes of keys with a seed that is drawn from the system; or the draft's first
/// fault. Want of memory is the one outer error.
pub fn build_topology<R: RandomSource>(
    rt: &R,
    alloc: Global,
    draft: Draft,
) -> Result<Result<Topology, TopoFault>, AllocError>
    ensures { IfOk result (λ r. Builds (draft_view draft) r) }
{
    match Topology::build(alloc, draft)? {
        Ok(mut topology) => {
            topology.set_seed(draw_seed(rt));
            Ok(Ok(topology))
        }
        Err(fault) => Ok(Err(fault)),
    }
}
