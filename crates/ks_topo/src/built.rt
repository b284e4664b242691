//! A topology as it is kept.
ghost use Rattle.std.specs.Prelude.{map};
ghost use Rattle.ks_plan.specs.Infos.{node_place};
ghost use Rattle.ks_topo.specs.Built.{IsBuilt, kept_draft};

use ks_plan::{Node, Topic, TopicDraft, TopicInfo};
use ks_record::{Blob, Name, Seq, TaskId};

/// A well-formed draft with its subtopologies, topics and tasks.
#[derive(Drop)]
pub struct Topology {
    pub(crate) app: Name,
    pub(crate) counts: Seq<(Name, TopicDraft)>,
    pub(crate) print: Seq<Blob>,
    pub(crate) nodes: Vec<Node>,
    pub(crate) topics: Vec<TopicInfo>,
    pub(crate) purposes: Vec<Topic>,
    pub(crate) tasks: Vec<TaskId>,
    pub(crate) inputs: Vec<Seq<u16>>,
    pub(crate) changelogs: Vec<Seq<u16>>,
    pub(crate) drained: Vec<u16>,
    // what the hashes of stores' keys begin with
    pub(crate) seed: u64,
    ghost built: { IsBuilt (kept_draft app counts nodes.items print) (map node_place nodes.items) topics.items purposes.items tasks.items inputs.items changelogs.items drained.items },
}
