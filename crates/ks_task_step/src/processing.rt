//! One whole step.
ghost use Rattle.std.specs.Prelude.{◌≡◌, ◌≤◌, ◌+◌, ◌++◌, IfOk, OnOk, map, slice_get};
ghost use Rattle.ks_def_tasks.specs.Step.{step_key};
ghost use Rattle.ks_history.specs.Faithful.{capped};
ghost use Rattle.ks_def_lookups.specs.Lists.{item_in};
ghost use Rattle.ks_def_tasks.specs.Rules.{rules_of};
ghost use Rattle.ks_task_nodes.specs.Nodes.{node_view};
ghost use Rattle.ks_task_nodes.specs.Reach.{NoItems, of_node, at_numbers};
ghost use Rattle.ks_task_nodes.specs.Records.{arrival_of, message_of};
ghost use Rattle.ks_task_values.specs.Items.{views};
ghost use Rattle.ks_task_values.specs.Changes.{changed_bytes};
ghost use Rattle.ks_task_values.specs.Values.{items_in, olds_in, news_in, olds_at};
ghost use Rattle.ks_task_processing.specs.Steps.{change_by, counts_at, at_part, recs_by, all_recs, late_of, late_by, late_at_numbers, late_in, made_with, made_at, made_of, IsQuiet};
ghost use Rattle.ks_cache.specs.Changelogs.{stores_in};

use crate::counts::{count_of, push_recs};
use crate::foreign::push_subscriber;
use crate::sends::{push_all_sends, push_told};
use crate::streams::passed_items;
use ks_hash::Hash128;
use ks_record::{Blob, PartId, PlacedRecords};
use ks_task_nodes::ProcessorNode;
use ks_task_values::{Item, NodeValues, Step, changed_value, live_value, live_values, node_at};
use std::alloc::{AllocError, Global};

// ---- what changelogs are told

fn changed_at(
    alloc: Global,
    values: &NodeValues<'_, '_>,
    number: u8,
) -> Result<Option<Option<Blob>>, AllocError>
    ensures { IfOk result (λ o. o ≡ changed_bytes (olds_in values.now number)
        (news_in values.now number)) }
{
    match live_value(values.live, number) {
        Some(live) => changed_value(alloc, live.old, &live.new),
        None => Ok(None),
    }
}

// The changelog record of a node whose stored value changed.
fn push_changelog_record(
    alloc: Global,
    out: &mut PlacedRecords,
    step: &Step<'_>,
    node: &ProcessorNode<'_>,
    values: &NodeValues<'_, '_>,
) -> Result<(), AllocError>
    ensures { OnOk result (out.new ≡ out.old
        ++ change_by step.now.partition (arrival_of step.now.stamped.now) (olds_in values.now)
        (news_in values.now) (node_view node.now)) }
{
    let Some(key) = step.stamped.key() else {
        return Ok(());
    };
    let Some(value) = changed_at(alloc, values, node.topics.number)? else {
        return Ok(());
    };
    let part = PartId {
        topic: node.topics.changelog,
        part: step.partition,
    };
    let key = key.as_str().as_bytes();
    let pushed = push_told(out, part, key, &value, step.stamped.time);
    drop(value);
    pushed
}

// What the changelog of a windowed count is told of an item; how many pairs of the item and a window were late. Of any other node nothing.
fn push_counts(
    alloc: Global,
    out: &mut PlacedRecords,
    step: &Step<'_>,
    node: &ProcessorNode<'_>,
    values: &NodeValues<'_, '_>,
) -> Result<u64, AllocError>
    ensures out { OnOk result (out.new ≡ out.old
        ++ map (at_part node.now.topics.changelog step.now.partition)
        (counts_at (stores_in step.now.changelogs.now) (arrival_of step.now.stamped.now)
        (items_in values.now) (node_view node.now)).recs) }
    ensures late { IfOk result (λ n. n ≡ (counts_at (stores_in step.now.changelogs.now)
        (arrival_of step.now.stamped.now) (items_in values.now) (node_view node.now)).late) }
{
    if !node.processor.is_windowed() {
        return Ok(0);
    }
    let (late, recs) = count_of(alloc, step, node, values)?;
    push_recs(out, node.topics.changelog, step.partition, &recs)?;
    Ok(late)
}

// What a node's changelogs are told; how many pairs were late so far, up to the greatest number.
fn push_changelog_records(
    alloc: Global,
    out: &mut PlacedRecords,
    late: u64,
    step: &Step<'_>,
    node: &ProcessorNode<'_>,
    values: &NodeValues<'_, '_>,
) -> Result<u64, AllocError>
    ensures out { OnOk result (out.new ≡ out.old
        ++ recs_by step.now.partition (stores_in step.now.changelogs.now)
        (arrival_of step.now.stamped.now) (items_in values.now) (olds_in values.now)
        (news_in values.now) (node_view node.now)) }
    ensures late { IfOk result (λ n. n ≡ capped
        (late + (counts_at (stores_in step.now.changelogs.now) (arrival_of step.now.stamped.now)
        (items_in values.now) (node_view node.now)).late)) }
{
    push_changelog_record(alloc, out, step, node, values)?;
    let more = push_counts(alloc, out, step, node, values)?;
    push_subscriber(alloc, out, step, node)?;
    Ok(late.saturating_add(more))
}

// What the changelogs of the node with a number are told, where there is one.
fn push_changelog_records_at(
    alloc: Global,
    out: &mut PlacedRecords,
    late: u64,
    step: &Step<'_>,
    number: u8,
    values: &NodeValues<'_, '_>,
) -> Result<u64, AllocError>
    ensures out { OnOk result (out.new ≡ out.old
        ++ of_node (recs_by step.now.partition (stores_in step.now.changelogs.now)
        (arrival_of step.now.stamped.now) (items_in values.now) (olds_in values.now)
        (news_in values.now)) (slice_get (map node_view step.now.nodes.now) number)) }
    ensures late { IfOk result (λ n. n ≡ capped
        (late + late_by (stores_in step.now.changelogs.now) (arrival_of step.now.stamped.now)
        (items_in values.now) (slice_get (map node_view step.now.nodes.now) number))) }
{
    match node_at(step.nodes, number) {
        Some(node) => push_changelog_records(alloc, out, late, step, node, values),
        None => Ok(late),
    }
}

// What the changelogs are told of the nodes that a step goes through.
fn push_live_changelog_records(
    alloc: Global,
    out: &mut PlacedRecords,
    step: &Step<'_>,
    values: &NodeValues<'_, '_>,
) -> Result<u64, AllocError>
    ensures out { OnOk result (out.new ≡ out.old
        ++ at_numbers (recs_by step.now.partition (stores_in step.now.changelogs.now)
        (arrival_of step.now.stamped.now) (items_in values.now) (olds_in values.now)
        (news_in values.now)) (map node_view step.now.nodes.now) step.now.live.now) }
    ensures late { IfOk result (λ n. n ≡ capped
        (late_at_numbers (stores_in step.now.changelogs.now) (arrival_of step.now.stamped.now)
        (items_in values.now) (map node_view step.now.nodes.now) step.now.live.now)) }
{
    let mut late = 0;
    let mut rest = step.live;
    while let [number, more @ ..] = rest {
        late = push_changelog_records_at(alloc, out, late, step, *number, values)?;
        rest = more;
    }
    Ok(late)
}

// What the changelogs of all nodes are told: those of nodes that the step doesn't go through nothing.
fn push_all_changelog_records(
    alloc: Global,
    out: &mut PlacedRecords,
    step: &Step<'_>,
    values: &NodeValues<'_, '_>,
) -> Result<u64, AllocError>
    requires { IsQuiet step.now (items_in values.now) (olds_in values.now) (news_in values.now) }
    ensures out { OnOk result (out.new ≡ out.old
        ++ all_recs step.now.partition (stores_in step.now.changelogs.now)
        (arrival_of step.now.stamped.now) (items_in values.now) (olds_in values.now)
        (news_in values.now) (map node_view step.now.nodes.now)) }
    ensures late { IfOk result (λ n. n ≡ capped
        (late_of (stores_in step.now.changelogs.now) (arrival_of step.now.stamped.now)
        (items_in values.now) (map node_view step.now.nodes.now))) }
{
    push_live_changelog_records(alloc, out, step, values)
}

// ---- the whole

fn push_output<H: Hash128>(
    alloc: Global,
    out: &mut PlacedRecords,
    step: &Step<'_>,
    values: &NodeValues<'_, '_>,
) -> Result<u64, AllocError>
    requires part { step.now.partition ≤ 63 }
    requires quiet { IsQuiet step.now (items_in values.now) (olds_in values.now)
        (news_in values.now) }
    ensures records { OnOk result (out.new ≡ out.old
        ++ made_with (rules_of H.hash_of) (map node_view step.now.nodes.now)
        (stores_in step.now.changelogs.now) step.now.partition (arrival_of step.now.stamped.now)
        (items_in values.now) (olds_in values.now) (news_in values.now)) }
    ensures late { IfOk result (λ n. n ≡ capped
        (late_of (stores_in step.now.changelogs.now) (arrival_of step.now.stamped.now)
        (items_in values.now) (map node_view step.now.nodes.now))) }
{
    push_all_sends::<H>(alloc, out, step, values)?;
    push_all_changelog_records(alloc, out, step, values)
}

// By the items that streams pass on.
fn process_items<'s, H: Hash128>(
    alloc: Global,
    out: &mut PlacedRecords,
    step: &Step<'s>,
    items: &[Option<Item>],
) -> Result<u64, AllocError>
    requires part { step.now.partition ≤ 63 }
    requires items { NoItems step.now.live.now (item_in (views items.now)) }
    ensures records { OnOk result (out.new ≡ out.old
        ++ made_at (rules_of H.hash_of) (map node_view step.now.nodes.now)
        (stores_in step.now.changelogs.now) step.now.partition (arrival_of step.now.stamped.now)
        (item_in (views items.now)) (olds_at step.now)
        (step_key (message_of step.now.stamped.now.payload))) }
    ensures late { IfOk result (λ n. n ≡ capped
        (late_of (stores_in step.now.changelogs.now) (arrival_of step.now.stamped.now)
        (item_in (views items.now)) (map node_view step.now.nodes.now))) }
{
    let live = live_values::<H>(alloc, step, items)?;
    let values = NodeValues {
        step,
        items,
        live: live.as_slice(),
    };
    push_output::<H>(alloc, out, step, &values)
}

/// All that the nodes make of a record in one step, at the end of other records: what is sent, then the changelog records; and how many
/// pairs of an item and a window were late, up to the greatest number. The step goes through the nodes that its topic can reach; any
/// other makes nothing. Rows are hashed by H; the step's partition is at most 63. Want of memory is the one error, after which some of the
/// records may stand there.
pub fn process<H: Hash128>(
    alloc: Global,
    out: &mut PlacedRecords,
    step: &Step<'_>,
) -> Result<u64, AllocError>
    requires { step.now.partition ≤ 63 }
    ensures records { OnOk result (out.new ≡ out.old
        ++ made_of (rules_of H.hash_of) (map node_view step.now.nodes.now)
        (stores_in step.now.changelogs.now) step.now.partition (arrival_of step.now.stamped.now)) }
    ensures late { IfOk result (λ n. n ≡ capped
        (late_in (map node_view step.now.nodes.now) (stores_in step.now.changelogs.now)
        (arrival_of step.now.stamped.now))) }
{
    let items = passed_items(alloc, step)?;
    process_items::<H>(alloc, out, step, items.as_slice())
}
