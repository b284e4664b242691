//! Topologies: drafts judged, and what is built of a well-formed one.
#![tactic(auto)]

mod built;
mod check;
mod infos;
mod judge;
mod laws;
mod sharing;
mod stop;
mod topology;

pub use built::Topology;
pub use ks_plan::{
    Draft, Node, NodeDraft, Op, Role, Topic, TopicDraft, TopicInfo, TopoFault, Wiring,
};
pub use laws::well_formed_drafts;
pub use sharing::share_topology;
pub use topology::first_fault;
