//! Whether a question can be asked.
ghost use Rattle.std.specs.Prelude.{◌≡◌, option_and_then};
ghost use Rattle.ks_topo.specs.Topologies.{draft_of};
ghost use Rattle.ks_iq.specs.Asks.{ask_fault};

use ks_iq::{Ask, IqFault, find_place};
use ks_topo::Topology;

/// What the topology alone has against a question, where there is one: that no table and no windowed count has the name, or that a start
/// is given for a node that isn't a windowed count, or none for one. Takes no memory.
pub fn bad_ask(topology: &Topology, question: &Option<Ask>) -> Option<IqFault>
    ensures { result ≡ option_and_then (ask_fault (draft_of topology.now)) question.now }
{
    let Some(ask) = question else {
        return None;
    };
    match find_place(topology, ask) {
        Ok(_) => None,
        Err(fault) => Some(fault),
    }
}
