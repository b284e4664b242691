//! Nodes of a topology line.
ghost use Rattle.std.specs.Prelude.{◌≡◌, [], codes, true, false, map};
ghost use Rattle.std.specs.List.{list_all};
ghost use Rattle.serde_json.specs.View.{view, items_view};
ghost use Rattle.ks_expr.specs.Terms.{set_of as terms_of, test_of};
ghost use Rattle.ks_plan.specs.Drafts.{op_view, node_view, nodes_view};
ghost use Rattle.ks_job_record.specs.Gives.{Gives};
ghost use Rattle.ks_job_topology.specs.Nodes.{kind_of, op_from, node_name_from, filter_from, map_from, key_op_from, count_from, sum_from, windowed_from, join_from, fk_join_from, body_from, node_from, nodes_from, nodes_of};

use crate::field::{read_blob, read_by, read_integer_if, read_join_kind, read_name_of};
use crate::labels::all_words;
use crate::set::read_set;
use crate::{read_fk, read_where};
use ks_job_record::{
    Form, Kind, LineError, bad_shape, read_integer_of, read_member, read_object, read_text,
};
use ks_plan::{NodeDraft, Op};
use ks_record::Name;
use serde_json::Value;
use std::alloc::Global;

#[tactic(auto, unfolding(crate::specs::Nodes::kind_of))]
fn find_kind(op: &str) -> Option<Kind>
    ensures { result ≡ kind_of op.now }
{
    if op == "stream" {
        Some(Kind::Stream)
    } else if op == "table" {
        Some(Kind::Table)
    } else if op == "filter" {
        Some(Kind::Filter)
    } else if op == "map_values" {
        Some(Kind::MapValues)
    } else if op == "select_key" {
        Some(Kind::SelectKey)
    } else if op == "count" {
        Some(Kind::Count)
    } else if op == "sum" {
        Some(Kind::Sum)
    } else if op == "windowed_count" {
        Some(Kind::WindowedCount)
    } else if op == "join" {
        Some(Kind::Join)
    } else if op == "fk_join" {
        Some(Kind::FkJoin)
    } else {
        None
    }
}

#[tactic(auto, unfolding(crate::specs::Nodes::op_from))]
fn read_kind(alloc: Global, value: &Value) -> Result<Kind, LineError>
    ensures { Gives (λ k. k) result (op_from (view value.now)) }
{
    let op = read_text(alloc, "op", value)?;
    match find_kind(op) {
        Some(kind) => Ok(kind),
        None => Err(LineError::Fault(bad_shape(alloc, "op")?)),
    }
}

#[tactic(auto, unfolding(crate::specs::Nodes::node_name_from))]
fn read_name(alloc: Global, value: &Value) -> Result<Name, LineError>
    ensures { Gives (λ n. n) result (node_name_from (view value.now)) }
{
    let text = read_text(alloc, "name", value)?;
    if !all_words(text.as_bytes()) {
        return Err(LineError::Fault(bad_shape(alloc, "name")?));
    }
    match Name::of_text(alloc, text)? {
        Some(name) => Ok(name),
        None => Err(LineError::Fault(bad_shape(alloc, "name")?)),
    }
}

#[tactic(auto, unfolding(crate::specs::Nodes::filter_from))]
fn read_filter(alloc: Global, value: &Value) -> Result<Op, LineError>
    ensures { Gives (λ o. op_view o) result (filter_from (view value.now)) }
{
    let from = read_blob(alloc, "from", value)?;
    let test = read_where(alloc, value)?;
    Ok(Op::Filter { from, test })
}

#[tactic(auto, unfolding(crate::specs::Nodes::map_from))]
fn read_map_values(alloc: Global, value: &Value) -> Result<Op, LineError>
    ensures { Gives (λ o. op_view o) result (map_from (view value.now)) }
{
    let from = read_blob(alloc, "from", value)?;
    let set = read_set(alloc, false, value)?;
    Ok(Op::MapValues { from, set })
}

#[tactic(auto, unfolding(crate::specs::Nodes::key_op_from))]
fn read_select_key(alloc: Global, value: &Value) -> Result<Op, LineError>
    ensures { Gives (λ o. op_view o) result (key_op_from (view value.now)) }
{
    let from = read_blob(alloc, "from", value)?;
    let key = read_name_of(alloc, "key", value)?;
    Ok(Op::SelectKey { from, key })
}

#[tactic(auto, unfolding(crate::specs::Nodes::count_from))]
fn read_count(alloc: Global, value: &Value) -> Result<Op, LineError>
    ensures { Gives (λ o. op_view o) result (count_from (view value.now)) }
{
    let from = read_blob(alloc, "from", value)?;
    let by = read_by(alloc, value)?;
    Ok(Op::Count { from, by })
}

#[tactic(auto, unfolding(crate::specs::Nodes::sum_from))]
fn read_sum(alloc: Global, value: &Value) -> Result<Op, LineError>
    ensures { Gives (λ o. op_view o) result (sum_from (view value.now)) }
{
    let from = read_blob(alloc, "from", value)?;
    let by = read_by(alloc, value)?;
    let field = read_name_of(alloc, "field", value)?;
    Ok(Op::Sum { from, by, field })
}

#[tactic(auto, unfolding(crate::specs::Nodes::windowed_from))]
fn read_windowed(alloc: Global, value: &Value) -> Result<Op, LineError>
    ensures { Gives (λ o. op_view o) result (windowed_from (view value.now)) }
{
    let from = read_blob(alloc, "from", value)?;
    let by = read_by(alloc, value)?;
    let size = read_integer_of(alloc, "size", value)?;
    let advance = read_integer_if(alloc, "advance", value)?;
    let grace = read_integer_if(alloc, "grace", value)?;
    Ok(Op::WindowedCount {
        from,
        by,
        size,
        advance,
        grace,
    })
}

#[tactic(auto, unfolding(crate::specs::Nodes::join_from))]
fn read_join(alloc: Global, value: &Value) -> Result<Op, LineError>
    ensures { Gives (λ o. op_view o) result (join_from (view value.now)) }
{
    let left = read_blob(alloc, "left", value)?;
    let right = read_blob(alloc, "right", value)?;
    let kind = read_join_kind(alloc, false, value)?;
    let set = read_set(alloc, true, value)?;
    Ok(Op::Join {
        left,
        right,
        kind,
        set,
    })
}

#[tactic(auto, unfolding(crate::specs::Nodes::fk_join_from))]
fn read_fk_join(alloc: Global, value: &Value) -> Result<Op, LineError>
    ensures { Gives (λ o. op_view o) result (fk_join_from (view value.now)) }
{
    let left = read_blob(alloc, "left", value)?;
    let right = read_blob(alloc, "right", value)?;
    let fk = read_fk(alloc, value)?;
    let kind = read_join_kind(alloc, true, value)?;
    let set = read_set(alloc, true, value)?;
    Ok(Op::FkJoin {
        left,
        right,
        fk,
        kind,
        set,
    })
}

#[tactic(auto, unfolding(crate::specs::Nodes::body_from))]
fn read_op(alloc: Global, kind: Kind, value: &Value) -> Result<Op, LineError>
    ensures { Gives (λ o. op_view o) result (body_from kind (view value.now)) }
{
    match kind {
        Kind::Stream => {
            let topic = read_blob(alloc, "topic", value)?;
            Ok(Op::Stream { topic })
        }
        Kind::Table => {
            let topic = read_blob(alloc, "topic", value)?;
            Ok(Op::Table { topic })
        }
        Kind::Filter => read_filter(alloc, value),
        Kind::MapValues => read_map_values(alloc, value),
        Kind::SelectKey => read_select_key(alloc, value),
        Kind::Count => read_count(alloc, value),
        Kind::Sum => read_sum(alloc, value),
        Kind::WindowedCount => read_windowed(alloc, value),
        Kind::Join => read_join(alloc, value),
        Kind::FkJoin => read_fk_join(alloc, value),
    }
}

#[tactic(auto, unfolding(crate::specs::Nodes::node_from))]
fn read_node(alloc: Global, value: &Value) -> Result<NodeDraft, LineError>
    ensures { Gives (λ n. node_view n) result (node_from (view value.now)) }
{
    if value.as_object().is_none() {
        return Err(LineError::Fault(bad_shape(alloc, "nodes")?));
    }
    let kind = read_kind(alloc, value)?;
    read_object(alloc, "nodes", Form::Node(kind), value)?;
    let name = read_name(alloc, value)?;
    let op = read_op(alloc, kind, value)?;
    Ok(NodeDraft { name, op })
}

#[tactic(auto, using(crate::proofs::Nodes::nodes_push))]
fn read_node_list(alloc: Global, values: &[Value]) -> Result<Vec<NodeDraft>, LineError>
    ensures { Gives (λ v. nodes_view v.items) result (nodes_from [] (items_view values.now)) }
{
    let mut nodes = Vec::new(alloc);
    let mut rest = values;
    while let [first, more @ ..] = rest {
        let node = read_node(alloc, first)?;
        nodes.push(node)?;
        rest = more;
    }
    Ok(nodes)
}

/// The nodes of a topology, in order.
#[tactic(auto, unfolding(crate::specs::Nodes::nodes_of))]
pub fn read_nodes(alloc: Global, value: &Value) -> Result<Vec<NodeDraft>, LineError>
    ensures { Gives (λ v. nodes_view v.items) result (nodes_of (view value.now)) }
{
    let inner = read_member(alloc, "nodes", value)?;
    match inner.as_array() {
        Some(list) => read_node_list(alloc, list),
        None => Err(LineError::Fault(bad_shape(alloc, "nodes")?)),
    }
}
