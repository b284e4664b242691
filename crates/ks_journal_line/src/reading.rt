//! Reading the lists and requests of a line.
ghost use Rattle.std.specs.Prelude.{◌≡◌, IfOk, option_map};
ghost use Rattle.ks_history.specs.declared.journal.Request.TheVariants.{Init, MarkNext, Join, Expire, Park, Unpark};
ghost use Rattle.serde_json.specs.View.{items_view};
ghost use Rattle.ks_journal.specs.Reading.{first, list_in, all_in, rec_in, pair_in, place_in, below_in, whole_in, produce_at, of_worker_at, add_at, append_at, offsets_at, decide_at, hold_at, probe_at, assign_at, of_instance_at, task_work_at, assignment_at, request_at};
ghost use Rattle.ks_journal_line.specs.Parts.{group_request_at};

use crate::values::{
    read_held, read_pair, read_place, read_rec, take_bool, take_part, take_task, take_u8, take_u64,
};
use ks_history::Request;
use ks_record::{Assignment, Rec, RecordList, Seq, SharedRecords, TaskId};
use serde_json::Value;
use std::alloc::{AllocError, Global};

fn all_recs(alloc: Global, items: &[Value]) -> Result<Option<RecordList>, AllocError>
    ensures { IfOk result (λ o. o ≡ all_in rec_in (items_view items.now)) }
{
    let mut found = RecordList::new(alloc);
    let mut rest = items;
    while let [first, more @ ..] = rest {
        let Some(rec) = read_rec(alloc, first)? else {
            return Ok(None);
        };
        found.push(rec.as_ref())?;
        rest = more;
    }
    Ok(Some(found))
}

fn take_recs(
    alloc: Global,
    items: &[Value],
) -> Result<Option<(SharedRecords, &[Value])>, AllocError>
    ensures { IfOk result (λ o. option_map (λ x. (x.0, items_view x.1.now)) o
        ≡ first (list_in rec_in) (items_view items.now)) }
{
    let [first, rest @ ..] = items else {
        return Ok(None);
    };
    let Some(list) = first.as_array() else {
        return Ok(None);
    };
    let Some(all) = all_recs(alloc, list.as_slice())? else {
        return Ok(None);
    };
    Ok(Some((SharedRecords::of(alloc, all)?, rest)))
}

fn all_pairs(alloc: Global, items: &[Value]) -> Result<Option<Vec<(u16, u64)>>, AllocError>
    ensures { IfOk result (λ o. option_map (λ v. v.items) o
        ≡ all_in pair_in (items_view items.now)) }
{
    let mut found = Vec::new(alloc);
    let mut rest = items;
    while let [first, more @ ..] = rest {
        let Some(value) = read_pair(first) else {
            return Ok(None);
        };
        found.push(value)?;
        rest = more;
    }
    Ok(Some(found))
}

fn take_pairs(
    alloc: Global,
    items: &[Value],
) -> Result<Option<(Seq<(u16, u64)>, &[Value])>, AllocError>
    ensures { IfOk result (λ o. option_map (λ x. (x.0, items_view x.1.now)) o
        ≡ first (list_in pair_in) (items_view items.now)) }
{
    let [first, rest @ ..] = items else {
        return Ok(None);
    };
    let Some(list) = first.as_array() else {
        return Ok(None);
    };
    let Some(all) = all_pairs(alloc, list.as_slice())? else {
        return Ok(None);
    };
    Ok(Some((Seq::of(all), rest)))
}

fn all_held(alloc: Global, items: &[Value]) -> Result<Option<Vec<(TaskId, u64)>>, AllocError>
    ensures { IfOk result (λ o. option_map (λ v. v.items) o
        ≡ all_in (place_in whole_in) (items_view items.now)) }
{
    let mut found = Vec::new(alloc);
    let mut rest = items;
    while let [first, more @ ..] = rest {
        let Some(value) = read_held(first) else {
            return Ok(None);
        };
        found.push(value)?;
        rest = more;
    }
    Ok(Some(found))
}

fn take_held(
    alloc: Global,
    items: &[Value],
) -> Result<Option<(Seq<(TaskId, u64)>, &[Value])>, AllocError>
    ensures { IfOk result (λ o. option_map (λ x. (x.0, items_view x.1.now)) o
        ≡ first (list_in (place_in whole_in)) (items_view items.now)) }
{
    let [first, rest @ ..] = items else {
        return Ok(None);
    };
    let Some(list) = first.as_array() else {
        return Ok(None);
    };
    let Some(all) = all_held(alloc, list.as_slice())? else {
        return Ok(None);
    };
    Ok(Some((Seq::of(all), rest)))
}

fn all_places(alloc: Global, items: &[Value]) -> Result<Option<Vec<(TaskId, u8)>>, AllocError>
    ensures { IfOk result (λ o. option_map (λ v. v.items) o
        ≡ all_in (place_in (below_in 256)) (items_view items.now)) }
{
    let mut found = Vec::new(alloc);
    let mut rest = items;
    while let [first, more @ ..] = rest {
        let Some(value) = read_place(first) else {
            return Ok(None);
        };
        found.push(value)?;
        rest = more;
    }
    Ok(Some(found))
}

fn take_places(
    alloc: Global,
    items: &[Value],
) -> Result<Option<(Seq<(TaskId, u8)>, &[Value])>, AllocError>
    ensures { IfOk result (λ o. option_map (λ x. (x.0, items_view x.1.now)) o
        ≡ first (list_in (place_in (below_in 256))) (items_view items.now)) }
{
    let [first, rest @ ..] = items else {
        return Ok(None);
    };
    let Some(list) = first.as_array() else {
        return Ok(None);
    };
    let Some(all) = all_places(alloc, list.as_slice())? else {
        return Ok(None);
    };
    Ok(Some((Seq::of(all), rest)))
}

fn take_first_rec(alloc: Global, items: &[Value]) -> Result<Option<(Rec, &[Value])>, AllocError>
    ensures { IfOk result (λ o. option_map (λ x. (x.0, items_view x.1.now)) o
        ≡ first rec_in (items_view items.now)) }
{
    let [first, rest @ ..] = items else {
        return Ok(None);
    };
    let Some(rec) = read_rec(alloc, first)? else {
        return Ok(None);
    };
    Ok(Some((rec, rest)))
}

fn take_produce(alloc: Global, items: &[Value]) -> Result<Option<(Request, &[Value])>, AllocError>
    ensures { IfOk result (λ o. option_map (λ x. (x.0, items_view x.1.now)) o
        ≡ produce_at (items_view items.now)) }
{
    let Some((part, rest)) = take_part(items) else {
        return Ok(None);
    };
    let Some((rec, rest)) = take_first_rec(alloc, rest)? else {
        return Ok(None);
    };
    Ok(Some((Request::Produce { part, rec }, rest)))
}

fn take_init(items: &[Value]) -> Option<(Request, &[Value])>
    ensures { option_map (λ x. (x.0, items_view x.1.now)) result
        ≡ of_worker_at Init (items_view items.now) }
{
    let (w, rest) = take_u8(items)?;
    Some((Request::Init { w }, rest))
}

fn take_mark(items: &[Value]) -> Option<(Request, &[Value])>
    ensures { option_map (λ x. (x.0, items_view x.1.now)) result
        ≡ of_worker_at MarkNext (items_view items.now) }
{
    let (w, rest) = take_u8(items)?;
    Some((Request::MarkNext { w }, rest))
}

fn take_join(items: &[Value]) -> Option<(Request, &[Value])>
    ensures { option_map (λ x. (x.0, items_view x.1.now)) result
        ≡ of_worker_at Join (items_view items.now) }
{
    let (w, rest) = take_u8(items)?;
    Some((Request::Join { w }, rest))
}

fn take_expire(items: &[Value]) -> Option<(Request, &[Value])>
    ensures { option_map (λ x. (x.0, items_view x.1.now)) result
        ≡ of_worker_at Expire (items_view items.now) }
{
    let (w, rest) = take_u8(items)?;
    Some((Request::Expire { w }, rest))
}

fn take_add(items: &[Value]) -> Option<(Request, &[Value])>
    ensures { option_map (λ x. (x.0, items_view x.1.now)) result ≡ add_at (items_view items.now) }
{
    let (w, rest) = take_u8(items)?;
    let (epoch, rest) = take_u64(rest)?;
    let (part, rest) = take_part(rest)?;
    Some((Request::Add { w, epoch, part }, rest))
}

fn take_decide(items: &[Value]) -> Option<(Request, &[Value])>
    ensures { option_map (λ x. (x.0, items_view x.1.now)) result
        ≡ decide_at (items_view items.now) }
{
    let (w, rest) = take_u8(items)?;
    let (epoch, rest) = take_u64(rest)?;
    let (commit, rest) = take_bool(rest)?;
    Some((Request::Decide { w, epoch, commit }, rest))
}

fn take_probe(items: &[Value]) -> Option<(Request, &[Value])>
    ensures { option_map (λ x. (x.0, items_view x.1.now)) result ≡ probe_at (items_view items.now) }
{
    let (w, rest) = take_u8(items)?;
    let (generation, rest) = take_u64(rest)?;
    Some((Request::Probe { w, generation }, rest))
}

fn take_park(items: &[Value]) -> Option<(Request, &[Value])>
    ensures { option_map (λ x. (x.0, items_view x.1.now)) result
        ≡ of_instance_at Park (items_view items.now) }
{
    let (instance, rest) = take_u8(items)?;
    let (task, rest) = take_task(rest)?;
    Some((Request::Park { instance, task }, rest))
}

fn take_unpark(items: &[Value]) -> Option<(Request, &[Value])>
    ensures { option_map (λ x. (x.0, items_view x.1.now)) result
        ≡ of_instance_at Unpark (items_view items.now) }
{
    let (instance, rest) = take_u8(items)?;
    let (task, rest) = take_task(rest)?;
    Some((Request::Unpark { instance, task }, rest))
}

fn take_work(items: &[Value]) -> Option<((u8, u64, u64, TaskId), &[Value])>
    ensures { option_map (λ x. (x.0, items_view x.1.now)) result
        ≡ task_work_at (items_view items.now) }
{
    let (w, rest) = take_u8(items)?;
    let (epoch, rest) = take_u64(rest)?;
    let (number, rest) = take_u64(rest)?;
    let (task, rest) = take_task(rest)?;
    Some(((w, epoch, number, task), rest))
}

fn take_append(alloc: Global, items: &[Value]) -> Result<Option<(Request, &[Value])>, AllocError>
    ensures { IfOk result (λ o. option_map (λ x. (x.0, items_view x.1.now)) o
        ≡ append_at (items_view items.now)) }
{
    let Some(((w, epoch, number, task), rest)) = take_work(items) else {
        return Ok(None);
    };
    let Some((part, rest)) = take_part(rest) else {
        return Ok(None);
    };
    let Some((recs, rest)) = take_recs(alloc, rest)? else {
        return Ok(None);
    };
    Ok(Some((
        Request::Append {
            w,
            epoch,
            number,
            task,
            part,
            recs,
        },
        rest,
    )))
}

fn take_offsets(alloc: Global, items: &[Value]) -> Result<Option<(Request, &[Value])>, AllocError>
    ensures { IfOk result (λ o. option_map (λ x. (x.0, items_view x.1.now)) o
        ≡ offsets_at (items_view items.now)) }
{
    let Some(((w, epoch, generation, task), rest)) = take_work(items) else {
        return Ok(None);
    };
    let Some((offsets, rest)) = take_pairs(alloc, rest)? else {
        return Ok(None);
    };
    let Some((order, rest)) = take_pairs(alloc, rest)? else {
        return Ok(None);
    };
    let Some((late, rest)) = take_u64(rest) else {
        return Ok(None);
    };
    Ok(Some((
        Request::SendOffsets {
            w,
            epoch,
            generation,
            task,
            offsets,
            order,
            late,
        },
        rest,
    )))
}

fn take_hold(alloc: Global, items: &[Value]) -> Result<Option<(Request, &[Value])>, AllocError>
    ensures { IfOk result (λ o. option_map (λ x. (x.0, items_view x.1.now)) o
        ≡ hold_at (items_view items.now)) }
{
    let Some((w, rest)) = take_u8(items) else {
        return Ok(None);
    };
    let Some((held, rest)) = take_held(alloc, rest)? else {
        return Ok(None);
    };
    Ok(Some((Request::Hold { w, held }, rest)))
}

fn take_assignment(
    alloc: Global,
    items: &[Value],
) -> Result<Option<(Assignment, &[Value])>, AllocError>
    ensures { IfOk result (λ o. option_map (λ x. (x.0, items_view x.1.now)) o
        ≡ assignment_at (items_view items.now)) }
{
    let Some((active, rest)) = take_places(alloc, items)? else {
        return Ok(None);
    };
    let Some((standby, rest)) = take_places(alloc, rest)? else {
        return Ok(None);
    };
    let Some((warmup, rest)) = take_places(alloc, rest)? else {
        return Ok(None);
    };
    Ok(Some((
        Assignment {
            active,
            standby,
            warmup,
        },
        rest,
    )))
}

fn take_assign(alloc: Global, items: &[Value]) -> Result<Option<(Request, &[Value])>, AllocError>
    ensures { IfOk result (λ o. option_map (λ x. (x.0, items_view x.1.now)) o
        ≡ assign_at (items_view items.now)) }
{
    let Some((w, rest)) = take_u8(items) else {
        return Ok(None);
    };
    let Some((generation, rest)) = take_u64(rest) else {
        return Ok(None);
    };
    let Some((a, rest)) = take_assignment(alloc, rest)? else {
        return Ok(None);
    };
    Ok(Some((Request::Assign { w, generation, a }, rest)))
}

// The request with a name that a request of the group or of an instance has.
fn take_group_request<'a>(
    alloc: Global,
    name: &str,
    items: &'a [Value],
) -> Result<Option<(Request, &'a [Value])>, AllocError>
    ensures { IfOk result (λ o. option_map (λ x. (x.0, items_view x.1.now)) o
        ≡ group_request_at name.now (items_view items.now)) }
{
    if name == "join" {
        Ok(take_join(items))
    } else if name == "expire" {
        Ok(take_expire(items))
    } else if name == "hold" {
        take_hold(alloc, items)
    } else if name == "probe" {
        Ok(take_probe(items))
    } else if name == "assign" {
        take_assign(alloc, items)
    } else if name == "park" {
        Ok(take_park(items))
    } else if name == "unpark" {
        Ok(take_unpark(items))
    } else {
        Ok(None)
    }
}

// The request with a name.
pub(crate) fn take_request<'a>(
    alloc: Global,
    name: &str,
    items: &'a [Value],
) -> Result<Option<(Request, &'a [Value])>, AllocError>
    ensures { IfOk result (λ o. option_map (λ x. (x.0, items_view x.1.now)) o
        ≡ request_at name.now (items_view items.now)) }
{
    if name == "produce" {
        take_produce(alloc, items)
    } else if name == "init" {
        Ok(take_init(items))
    } else if name == "add" {
        Ok(take_add(items))
    } else if name == "append" {
        take_append(alloc, items)
    } else if name == "offsets" {
        take_offsets(alloc, items)
    } else if name == "decide" {
        Ok(take_decide(items))
    } else if name == "mark" {
        Ok(take_mark(items))
    } else {
        take_group_request(alloc, name, items)
    }
}
