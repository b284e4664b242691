//! The topology line.
ghost use Rattle.std.specs.Prelude.{◌≡◌, [], IfOk};
ghost use Rattle.serde_json.specs.View.{view, members_view, items_view};
ghost use Rattle.ks_job_record.specs.Gives.{Gives};
ghost use Rattle.ks_job_topology.specs.Topology.{label_from, app_from, topic_from, topics_from, topics_of, print_from, print_of, topology_from, names_of};
ghost use Rattle.ks_plan.specs.Drafts.{draft_view};

use crate::labels::all_labels;
use crate::node::read_nodes;
use crate::stated::read_spread;
use ks_job_record::{Form, LineError, bad_shape, blob_of, read_member, read_object, read_text};
use ks_plan::{Draft, TopicDraft};
use ks_record::{Blob, Name, Seq};
use serde_json::Value;
use serde_json::value::Map;
use std::alloc::{AllocError, Global};

#[tactic(auto, unfolding(crate::specs::Topology::label_from))]
fn read_label(alloc: Global, name: &str, text: &str) -> Result<Name, LineError>
    ensures { Gives (λ n. n) result (label_from name.now text.now) }
{
    if !all_labels(text.as_bytes()) {
        return Err(LineError::Fault(bad_shape(alloc, name)?));
    }
    match Name::of_text(alloc, text)? {
        Some(label) => Ok(label),
        None => Err(LineError::Fault(bad_shape(alloc, name)?)),
    }
}

#[tactic(auto, unfolding(crate::specs::Topology::app_from))]
fn read_app(alloc: Global, value: &Value) -> Result<Name, LineError>
    ensures { Gives (λ n. n) result (app_from (view value.now)) }
{
    let text = read_text(alloc, "app", value)?;
    read_label(alloc, "app", text)
}

#[tactic(auto, unfolding(crate::specs::Topology::topic_from))]
fn read_topic(alloc: Global, name: &str, value: &Value) -> Result<(Name, TopicDraft), LineError>
    ensures { Gives (λ t. t) result (topic_from name.now (view value.now)) }
{
    let label = read_label(alloc, name, name)?;
    let spread = read_spread(alloc, name, value)?;
    Ok((label, spread))
}

fn read_topic_list(
    alloc: Global,
    map: &Map<String, Value>,
) -> Result<Vec<(Name, TopicDraft)>, LineError>
    ensures { Gives (λ v. v.items) result (topics_from [] (members_view map.now.entries)) }
{
    let mut topics = Vec::new(alloc);
    for (name, value) in map {
        topics.push(read_topic(alloc, name.as_str(), value)?)?;
    }
    Ok(topics)
}

#[tactic(auto, unfolding(crate::specs::Topology::topics_of))]
fn read_topics(alloc: Global, value: &Value) -> Result<Vec<(Name, TopicDraft)>, LineError>
    ensures { Gives (λ v. v.items) result (topics_of (view value.now)) }
{
    let inner = read_member(alloc, "topics", value)?;
    match inner.as_object() {
        Some(map) => read_topic_list(alloc, map),
        None => Err(LineError::Fault(bad_shape(alloc, "topics")?)),
    }
}

fn read_print_list(alloc: Global, values: &[Value]) -> Result<Vec<Blob>, LineError>
    ensures { Gives (λ v. v.items) result (print_from [] (items_view values.now)) }
{
    let mut names = Vec::new(alloc);
    let mut rest = values;
    while let [first, more @ ..] = rest {
        match first.as_str() {
            Some(name) => names.push(blob_of(alloc, name)?)?,
            None => return Err(LineError::Fault(bad_shape(alloc, "print")?)),
        }
        rest = more;
    }
    Ok(names)
}

#[tactic(auto, unfolding(crate::specs::Topology::print_of))]
fn read_print(alloc: Global, value: &Value) -> Result<Vec<Blob>, LineError>
    ensures { Gives (λ v. v.items) result (print_of (view value.now)) }
{
    let inner = read_member(alloc, "print", value)?;
    match inner.as_array() {
        Some(list) => read_print_list(alloc, list),
        None => Err(LineError::Fault(bad_shape(alloc, "print")?)),
    }
}

/// The topology that a value is, or the first fault.
#[tactic(auto, unfolding(crate::specs::Topology::topology_from))]
pub fn read_topology(alloc: Global, value: &Value) -> Result<Draft, LineError>
    ensures { Gives (λ d. draft_view d) result (topology_from (view value.now)) }
{
    read_object(alloc, "line", Form::Topology, value)?;
    let app = read_app(alloc, value)?;
    let topics = read_topics(alloc, value)?;
    let nodes = read_nodes(alloc, value)?;
    let print = read_print(alloc, value)?;
    Ok(Draft {
        app,
        topics: Seq::of(topics),
        nodes: Seq::of(nodes),
        print: Seq::of(print),
    })
}

/// The names of the topics.
pub fn copy_names(alloc: Global, topics: &[(Name, TopicDraft)]) -> Result<Vec<Name>, AllocError>
    ensures { IfOk result (λ v. v.items ≡ names_of topics.now) }
{
    let mut names = Vec::new(alloc);
    let mut rest = topics;
    while let [first, more @ ..] = rest {
        names.push(first.0.clone()?)?;
        rest = more;
    }
    Ok(names)
}
