//! What a topology is made of: drafts as job lines give them, their faults, and the plan of a draft by numbers.
#![tactic(auto)]

mod draft;
mod fault;
mod node;
mod sharing;
mod window;

pub use draft::{Draft, NodeDraft, Op, TopicDraft};
pub use fault::TopoFault;
pub use node::{Node, Role, Spread, Topic, TopicInfo, Wiring};
pub use sharing::{share_draft, share_node};
pub use window::Window;
