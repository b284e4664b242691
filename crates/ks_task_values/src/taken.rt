//! What a task takes a record with.
ghost use Rattle.std.specs.Prelude.{◌≡◌, [], map, true};
ghost use Rattle.ks_task_nodes.specs.Nodes.{node_view};
ghost use Rattle.ks_task_nodes.specs.Reach.{are_numbered, live_in};

use ks_cache::Changelog;
use ks_task_nodes::{ProcessorNode, StampedRecord};

/// What a task takes a record with: its nodes, each at its number; the numbers of those that the record's topic can reach; its changelogs,
/// its partition, and the record.
#[derive(Clone, Copy)]
pub struct Step<'s> {
    pub nodes: &'s [ProcessorNode<'s>],
    pub live: &'s [u8],
    pub changelogs: &'s [Changelog],
    pub partition: u8,
    pub stamped: &'s StampedRecord<'s>,
    pub ghost numbered: { are_numbered 0 (map node_view nodes.now) ≡ true },
    pub ghost reached: { live.now ≡ live_in stamped.now.topic [] (map node_view nodes.now) },
}
