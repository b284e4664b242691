//! All accounts, kept along a journal.
ghost use Rattle.std.specs.Prelude.{◌≡◌, ◌≤◌, ◌<◌, IfOk, IfSome, OnOk, None, Some, get_or, length, option_map, replicate};
ghost use Rattle.ks_history.specs.declared.journal.Request.TheVariants.{Init, Add, Append, SendOffsets, Decide, Expire};
ghost use Rattle.ks_history.specs.State.{has_task};
ghost use Rattle.ks_audit_ledger.specs.Accounts.{blank, last_of, opened, noted, noted_by, owner_of};
ghost use Rattle.ks_audit_ledger.specs.Ledgers.{is_decidable, ledger_after};

use crate::account::{Account, Open, Sent};
use ks_group::new_pending;
use ks_history::{Entry, Pending, Reply, Request};
use ks_record::{PartId, Seq, SharedRecords, TaskId};
use std::alloc::{AllocError, Global};
use std::mem;

/// The accounts of producers 0 to 16.
pub type Ledger = Vec<Account>;

/// 17 accounts of epoch 0, none open. Want of memory is the one error.
pub fn new_ledger(alloc: Global) -> Result<Vec<Account>, AllocError>
    ensures { IfOk result (λ l. l.items ≡ replicate 17 blank) }
{
    let mut accounts = Vec::new(alloc);
    for _ in 0..17usize {
        accounts.push(Account {
            epoch: 0,
            undecided: None,
        })?;
    }
    Ok(accounts)
}

fn owner_of(request: &Request) -> Option<u8>
    ensures { result ≡ owner_of request.now }
{
    match request {
        Request::Init { w } => Some(*w),
        Request::Add { w, .. } => Some(*w),
        Request::Append { w, .. } => Some(*w),
        Request::SendOffsets { w, .. } => Some(*w),
        Request::Decide { w, .. } => Some(*w),
        Request::Expire { w } => Some(*w),
        _ => None,
    }
}

// What an account has open, or what it begins with; the account is left closed.
fn take_open(alloc: Global, account: &mut Account) -> Open
    ensures taken { result ≡ opened account.old.undecided }
    ensures epoch { account.new ≡ record account.old { undecided = None } }
{
    match mem::replace(&mut account.undecided, None) {
        Some(open) => open,
        None => Open {
            tasks: Seq::new(alloc),
            pending: Seq::new(alloc),
            sent: Seq::new(alloc),
        },
    }
}

fn note_init(account: &mut Account, w: u8, reply: &Reply)
    ensures { account.new ≡ noted_by account.old (Init w) reply.now }
{
    if let Reply::Number(epoch) = reply {
        account.epoch = *epoch;
        account.undecided = None;
    }
}

fn note_add(alloc: Global, account: &mut Account, w: u8, epoch: u64, part: PartId, reply: &Reply)
    ensures { account.new ≡ noted_by account.old (Add w epoch part) reply.now }
{
    if let Reply::Done = reply {
        let open = take_open(alloc, account);
        account.undecided = Some(open);
    }
}

fn note_append(
    alloc: Global,
    account: &mut Account,
    w: u8,
    epoch: u64,
    number: u64,
    task: TaskId,
    part: PartId,
    recs: &SharedRecords,
    reply: &Reply,
) -> Result<(), AllocError>
    ensures { OnOk result (account.new
        ≡ noted_by account.old (Append w epoch number task part recs.now) reply.now) }
{
    if let Reply::Number(first) = reply {
        let recs = recs.share()?;
        let mut open = take_open(alloc, account);
        open.tasks.push(task)?;
        open.sent.push(Sent {
            task,
            part,
            first: *first,
            recs,
        })?;
        account.undecided = Some(open);
    }
    Ok(())
}

fn note_offsets(
    alloc: Global,
    account: &mut Account,
    w: u8,
    epoch: u64,
    generation: u64,
    task: TaskId,
    offsets: &[(u16, u64)],
    order: &[(u16, u64)],
    late: u64,
    reply: &Reply,
) -> Result<(), AllocError>
    ensures { OnOk result (account.new ≡ noted_by account.old
        (SendOffsets w epoch generation task offsets.now order.now late) reply.now) }
{
    if let Reply::Done = reply {
        let new = new_pending(alloc, task, offsets, order, late)?;
        let mut open = take_open(alloc, account);
        open.pending.push(new)?;
        account.undecided = Some(open);
    }
    Ok(())
}

fn note_decision(account: &mut Account, w: u8, epoch: u64, commit: bool, reply: &Reply)
    ensures { account.new ≡ noted_by account.old (Decide w epoch commit) reply.now }
{
    if let Reply::Done = reply {
        account.undecided = None;
    }
}

fn note_expiry(account: &mut Account, w: u8, reply: &Reply) -> Result<(), AllocError>
    ensures { OnOk result (account.new ≡ noted_by account.old (Expire w) reply.now) }
{
    if let Reply::Truth(true) = reply {
        let Some(epoch) = account.epoch.checked_add(1) else {
            return Err(AllocError);
        };
        account.epoch = epoch;
        account.undecided = None;
    }
    Ok(())
}

fn note_in(alloc: Global, account: &mut Account, entry: &Entry) -> Result<(), AllocError>
    ensures { OnOk result (account.new ≡ noted account.old entry.now) }
{
    let reply = &entry.reply;
    match &entry.request {
        Request::Init { w } => {
            note_init(account, *w, reply);
            Ok(())
        }
        Request::Add { w, epoch, part } => {
            note_add(alloc, account, *w, *epoch, *part, reply);
            Ok(())
        }
        Request::Append {
            w,
            epoch,
            number,
            task,
            part,
            recs,
        } => note_append(
            alloc, account, *w, *epoch, *number, *task, *part, recs, reply,
        ),
        Request::SendOffsets {
            w,
            epoch,
            generation,
            task,
            offsets,
            order,
            late,
        } => note_offsets(
            alloc,
            account,
            *w,
            *epoch,
            *generation,
            *task,
            offsets.as_slice(),
            order.as_slice(),
            *late,
            reply,
        ),
        Request::Decide { w, epoch, commit } => {
            note_decision(account, *w, *epoch, *commit, reply);
            Ok(())
        }
        Request::Expire { w } => note_expiry(account, *w, reply),
        _ => Ok(()),
    }
}

/// Notes an entry whose reply is that of the step. Want of memory is the one error; after it the ledger is to be dropped.
pub fn note(alloc: Global, ledger: &mut Vec<Account>, entry: &Entry) -> Result<(), AllocError>
    requires count { length ledger.old.items ≡ 17 }
    requires worker { IfSome (owner_of entry.now.request) (λ w. w ≤ 16) }
    ensures { OnOk result (ledger.new.items ≡ ledger_after ledger.old.items entry.now) }
{
    match owner_of(&entry.request) {
        Some(w) => note_in(alloc, &mut ledger[w as usize], entry),
        None => Ok(()),
    }
}

/// Whether a decision of this producer in this epoch is accepted. Takes no memory.
pub fn is_open_in(ledger: &[Account], w: u8, epoch: u64) -> bool
    requires { w < length ledger.now }
    ensures { result ≡ is_decidable (get_or ledger.now w blank) epoch }
{
    let account = &ledger[w as usize];
    epoch == account.epoch && account.undecided.is_some()
}

// The last of some offsets for a task.
fn last_for<'a>(pending: &'a [Pending], task: TaskId) -> Option<&'a Pending>
    ensures { option_map (λ p. p.now) result ≡ last_of task pending.now }
{
    let mut found = None;
    let mut rest = pending;
    while let [first, more @ ..] = rest {
        if task.is(first.task) {
            found = Some(first);
        }
        rest = more;
    }
    found
}

fn is_among(task: TaskId, tasks: &[TaskId]) -> bool
    ensures { result ≡ has_task task tasks.now }
{
    let mut rest = tasks;
    while let [first, more @ ..] = rest {
        if task.is(*first) {
            return true;
        }
        rest = more;
    }
    false
}

/// The offsets that were sent last for a task. Takes no memory.
pub fn pending_for(open: &Open, task: TaskId) -> Option<&Pending>
    ensures { option_map (λ p. p.now) result ≡ last_of task open.now.pending }
{
    last_for(open.pending.as_slice(), task)
}

/// Whether an append named a task. Takes no memory.
pub fn is_named(open: &Open, task: TaskId) -> bool
    ensures { result ≡ has_task task open.now.tasks }
{
    is_among(task, open.tasks.as_slice())
}
