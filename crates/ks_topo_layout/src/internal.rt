//! The topics that a node needs besides those of the job, and their names.
ghost use Rattle.std.specs.Prelude.{◌≡◌, ◌++◌, IfOk, OnOk};
ghost use Rattle.ks_plan.specs.Layout.{wired_through, wired_changelogs};
ghost use Rattle.ks_plan.specs.Infos.{internal_name as internal_bytes, suffix_of};

use crate::resolve::gives_stream;
use ks_plan::{Topic, Wiring};
use ks_record::{Blob, Name};
use std::alloc::{AllocError, Global};

fn suffix(topic: Topic) -> &'static str
    ensures { result.now ≡ suffix_of topic }
{
    match topic {
        Topic::Input(_) => "",
        Topic::Repartition(_) => "repartition",
        Topic::Subscriptions(_) => "subscription-registration-topic",
        Topic::Responses(_) => "subscription-response-topic",
        Topic::Changelog(_) => "changelog",
        Topic::HashChangelog(_) => "subscription-store-changelog",
    }
}

/// The name of a topic of a node, behind that of the application: `app-node-suffix`. An error only where memory runs out.
pub fn internal_name(
    alloc: Global,
    app: &Name,
    node: &[u8],
    topic: Topic,
) -> Result<Blob, AllocError>
    ensures { IfOk result (λ b. b ≡ internal_bytes app.now node.now topic) }
{
    let mut name = Vec::new(alloc);
    name.extend_from_slice(app.as_str().as_bytes())?;
    name.extend_from_slice("-".as_bytes())?;
    name.extend_from_slice(node)?;
    name.extend_from_slice("-".as_bytes())?;
    name.extend_from_slice(suffix(topic).as_bytes())?;
    Blob::of(name)
}

/// The topics that a node's own parts read, at the end of others. An error only where memory runs out.
pub fn push_through(topics: &mut Vec<Topic>, node: u8, wiring: Wiring) -> Result<(), AllocError>
    ensures { OnOk result (topics.new.items ≡ topics.old.items ++ wired_through node wiring) }
{
    match wiring {
        Wiring::StreamAggregate { through: true, .. } => topics.push(Topic::Repartition(node))?,
        Wiring::TableAggregate { .. } => topics.push(Topic::Repartition(node))?,
        Wiring::Windowed { through: true, .. } => topics.push(Topic::Repartition(node))?,
        Wiring::ForeignKeyJoin { .. } => {
            topics.push(Topic::Subscriptions(node))?;
            topics.push(Topic::Responses(node))?;
        }
        _ => {}
    }
    Ok(())
}

/// The changelogs of a node's stores, at the end of others. An error only where memory runs out.
pub fn push_changelogs(topics: &mut Vec<Topic>, node: u8, wiring: Wiring) -> Result<(), AllocError>
    ensures { OnOk result (topics.new.items ≡ topics.old.items ++ wired_changelogs node wiring) }
{
    match wiring {
        Wiring::ForeignKeyJoin { .. } => {
            topics.push(Topic::Changelog(node))?;
            topics.push(Topic::HashChangelog(node))?;
        }
        _ => {
            if !gives_stream(wiring) {
                topics.push(Topic::Changelog(node))?;
            }
        }
    }
    Ok(())
}
