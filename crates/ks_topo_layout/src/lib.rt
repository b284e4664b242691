//! From a draft's names to numbers: its nodes, topics, subtopologies and tasks, each as the definition has it.
#![tactic(auto)]

mod internal;
mod layout;
mod names;
mod resolve;
mod shape;
mod topics;

pub use internal::{internal_name, push_changelogs, push_through};
pub use layout::{number_at, origin_at, push_origin, push_parts, shape_of, sub_of};
pub use names::{is_before, is_listed, is_node, is_source, is_topic};
pub use resolve::{Input, Resolved, find_input, gives_stream, resolve_op};
pub use shape::Shape;
pub use topics::{
    changelog_topics, drained_topics, drained_topics_by_node, number_of, numbers_by_sub,
    numbers_of, origin_of_topic, parts_of_topic, tasks_of,
};
