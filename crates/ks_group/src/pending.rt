//! The offsets that are pending at producers.
ghost use Rattle.std.specs.Prelude.{◌≡◌, ◌≤◌, IfOk, OnOk, OnErr, length};
ghost use Rattle.ks_history.specs.State.{with_pending};
ghost use Rattle.ks_history.specs.Step.{with_late};
ghost use Rattle.ks_group.specs.Pending.{counts_for, is_pending, unstable_in, pending_place, is_at};

use ks_history::Pending;
use ks_record::{Refused, Seq, TaskId};
use std::alloc::{AllocError, Global};
use std::mem;

/// The late total with what is pending, at most 2^64 - 1.
pub fn late_with(late: u64, pending: &[Pending]) -> u64
    ensures { result ≡ with_late late pending.now }
{
    let mut sum = late;
    for p in pending {
        sum = sum.saturating_add(p.late);
    }
    sum
}

fn copy_pairs(alloc: Global, pairs: &[(u16, u64)]) -> Result<Vec<(u16, u64)>, AllocError>
    ensures { IfOk result (λ made. made.items ≡ pairs.now) }
{
    let mut made = Vec::new(alloc);
    made.extend_from_slice(pairs)?;
    Ok(made)
}

/// New pending offsets of a task.
pub fn new_pending(
    alloc: Global,
    task: TaskId,
    offsets: &[(u16, u64)],
    order: &[(u16, u64)],
    late: u64,
) -> Result<Pending, AllocError>
    ensures { IfOk result (λ p. p ≡ record {
      task = task;
      offsets = offsets.now;
      order = order.now;
      late = late;
    }) }
{
    Ok(Pending {
        task,
        offsets: Seq::of(copy_pairs(alloc, offsets)?),
        order: Seq::of(copy_pairs(alloc, order)?),
        late,
    })
}

/// Where the offsets of a task stand among pending ones in order of tasks, or where they would stand.
fn place_of(pending: &[Pending], task: TaskId) -> usize
    ensures { result ≡ pending_place task pending.now }
{
    let mut at: usize = 0;
    for p in pending {
        if task.is(p.task) || task.is_before(p.task) {
            return at;
        }
        at += 1;
    }
    at
}

/// Whether the offsets at a place are those of a task.
fn is_at(pending: &[Pending], at: usize, task: TaskId) -> bool
    ensures { result ≡ is_at task at pending.now }
{
    match pending.get(at) {
        Some(p) => task.is(p.task),
        None => false,
    }
}

/// Puts offsets among pending ones, in order of tasks, in place of earlier ones of the task. Want of memory is the one error;
/// after it all is as before.
fn put_pending(pending: &mut Vec<Pending>, new: Pending) -> Result<(), AllocError>
    ensures ok { OnOk result (pending.new.items ≡ with_pending new pending.old.items) }
    ensures err { OnErr result (pending.new.items ≡ pending.old.items) }
{
    let at = place_of(pending.as_slice(), new.task);
    if is_at(pending.as_slice(), at, new.task) {
        pending[at] = new;
        return Ok(());
    }
    pending.insert(at, new)?;
    Ok(())
}

/// Puts offsets among those of one producer, as `put_pending` does.
pub fn pend_in(alloc: Global, own: &mut Seq<Pending>, new: Pending) -> Result<(), AllocError>
    ensures ok { OnOk result (own.new ≡ with_pending new own.old) }
    ensures err { OnErr result (own.new ≡ own.old) }
{
    let mut pending = mem::replace(own, Seq::new(alloc)).into_vec();
    let put = put_pending(&mut pending, new);
    *own = Seq::of(pending);
    put?;
    Ok(())
}

/// Whether offsets are pending for a task.
fn is_pending(pending: &[Pending], task: TaskId) -> bool
    ensures { result ≡ is_pending task pending.now }
{
    for p in pending {
        if task.is(p.task) {
            return true;
        }
    }
    false
}

/// Why a task's offsets may not be read or sent: the least producer, but for one, that has some pending.
pub fn unstable_refusal(all: &[Seq<Pending>], task: TaskId, except: Option<u8>) -> Option<Refused>
    requires { length all.now ≤ 255 }
    ensures { result ≡ unstable_in task (counts_for except) 0 all.now }
{
    let mut v: u8 = 0;
    for pending in all {
        if except != Some(v) && is_pending(pending.as_slice(), task) {
            return Some(Refused::Unstable { producer: v });
        }
        v += 1;
    }
    None
}
