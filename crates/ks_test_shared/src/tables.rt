//! A table of calls through two passes of one lock, on one thread.
ghost use Rattle.std.specs.Prelude.{◌≡◌};
ghost use Rattle.ks_test_shared.specs.Ours.{IsOurs};

use crate::calls::{abort, add, append, feed, init, mark, park, unpark};
use crate::passes::{close, expect_number, expect_text, new_locked};
use ks_growing::Pass;
use ks_shared::{Barred, Shared, SharedState};
use ks_test_cluster::copying::Copying;
use std::alloc::{AllocError, Global};
use std::process::Abort;
use std::sync::Wait;

#[derive(Clone, Copy)]
enum Call {
    Init,
    Add,
    Append,
    Abort,
    Mark,
    /// Feeds a replica of the changelog, and parks it.
    Park,
    Unpark,
}

/// Calls through pass 0 or pass 1, each of which keeps a last entry of worker 0 of its own. The second pass doesn't know of the
/// worker's entries. A replica keeps its position on the shelf.
const CALLS: &[(bool, Call, &str)] = &[
    (true, Call::Init, "1, last 1"),
    (false, Call::Add, "touched 1, last 0"),
    (true, Call::Add, "done, last 2"),
    (false, Call::Append, "touched 2, last 0"),
    (true, Call::Append, "done, last 3"),
    (true, Call::Abort, "done, last 4"),
    (false, Call::Mark, "1/0 false"),
    (true, Call::Park, "parked at 2"),
    (false, Call::Unpark, "at 2"),
    (false, Call::Unpark, "none"),
];

fn told<T: Copy>(
    alloc: Global,
    outcome: Result<Result<T, Barred>, AllocError>,
    last: u64,
) -> Result<String, AllocError> {
    match outcome {
        Ok(Ok(_)) => format!(in alloc; "done, last {last}"),
        Ok(Err(Barred::Touched { at })) => format!(in alloc; "touched {at}, last {last}"),
        Ok(Err(Barred::Refused(refused))) => format!(in alloc; "{refused}, last {last}"),
        Err(error) => Err(error),
    }
}

fn own<R: Wait>(
    rt: &R,
    alloc: Global,
    shared: &Shared<Copying>,
    call: Call,
    last: &mut u64,
    pass: &mut Pass<SharedState<Copying>>,
) -> Result<String, AllocError>
    requires ours { IsOurs shared.now.growing.id pass.old }
    ensures ours { IsOurs shared.now.growing.id pass.new }
    ensures number { pass.new.number ≡ pass.old.number }
{
    match call {
        Call::Add => {
            let outcome = add(rt, alloc, shared, last, pass);
            told(alloc, outcome, *last)
        }
        Call::Append => {
            let outcome = append(rt, alloc, shared, last, pass);
            told(alloc, outcome, *last)
        }
        Call::Abort => {
            let outcome = abort(rt, alloc, shared, last, pass);
            told(alloc, outcome, *last)
        }
        _ => {
            let epoch = init(rt, alloc, shared, 0, last, pass)?;
            format!(in alloc; "{epoch}, last {}", *last)
        }
    }
}

fn write_marker<R: Wait>(
    rt: &R,
    alloc: Global,
    shared: &Shared<Copying>,
    pass: &mut Pass<SharedState<Copying>>,
) -> Result<String, AllocError>
    requires ours { IsOurs shared.now.growing.id pass.old }
    ensures ours { IsOurs shared.now.growing.id pass.new }
    ensures number { pass.new.number ≡ pass.old.number }
{
    match mark(rt, alloc, shared, pass)? {
        Some((part, commit)) => format!(in alloc; "{}/{} {commit}", part.topic, part.part),
        None => String::from_str(alloc, "none"),
    }
}

fn park_fed<R: Wait + Abort>(
    rt: &R,
    alloc: Global,
    shared: &Shared<Copying>,
    pass: &mut Pass<SharedState<Copying>>,
) -> Result<String, AllocError>
    requires ours { IsOurs shared.now.growing.id pass.old }
    ensures ours { IsOurs shared.now.growing.id pass.new }
    ensures number { pass.new.number ≡ pass.old.number }
{
    let replica = feed(rt, alloc, shared, pass);
    let position = replica.position(1);
    match park(rt, alloc, shared, replica, pass) {
        Ok(()) => format!(in alloc; "parked at {position}"),
        Err(_) => rt.abort(),
    }
}

fn take_back<R: Wait>(
    rt: &R,
    alloc: Global,
    shared: &Shared<Copying>,
    pass: &mut Pass<SharedState<Copying>>,
) -> Result<String, AllocError>
    requires ours { IsOurs shared.now.growing.id pass.old }
    ensures ours { IsOurs shared.now.growing.id pass.new }
    ensures number { pass.new.number ≡ pass.old.number }
{
    match unpark(rt, alloc, shared, pass)? {
        Some(replica) => {
            let position = replica.position(1);
            drop(replica);
            format!(in alloc; "at {position}")
        }
        None => String::from_str(alloc, "none"),
    }
}

fn answer<R: Wait + Abort>(
    rt: &R,
    alloc: Global,
    shared: &Shared<Copying>,
    call: Call,
    last: &mut u64,
    pass: &mut Pass<SharedState<Copying>>,
) -> Result<String, AllocError>
    requires ours { IsOurs shared.now.growing.id pass.old }
    ensures ours { IsOurs shared.now.growing.id pass.new }
    ensures number { pass.new.number ≡ pass.old.number }
{
    match call {
        Call::Mark => write_marker(rt, alloc, shared, pass),
        Call::Park => park_fed(rt, alloc, shared, pass),
        Call::Unpark => take_back(rt, alloc, shared, pass),
        _ => own(rt, alloc, shared, call, last, pass),
    }
}

// What was told is this.
fn expect_told<R: Abort>(rt: &R, told: Result<String, AllocError>, expected: &str) {
    match &told {
        Ok(told) => expect_text(rt, told, expected),
        Err(_) => rt.abort(),
    }
}

fn run_all<R: Wait + Abort>(
    rt: &R,
    alloc: Global,
    shared: &Shared<Copying>,
    first: &mut Pass<SharedState<Copying>>,
    second: &mut Pass<SharedState<Copying>>,
)
    requires first { IsOurs shared.now.growing.id first.old }
    requires second { IsOurs shared.now.growing.id second.old }
    ensures first { IsOurs shared.now.growing.id first.new × (first.new.number ≡ first.old.number) }
    ensures second { IsOurs shared.now.growing.id second.new
        × (second.new.number ≡ second.old.number) }
{
    let mut last = 0;
    let mut other = 0;
    for (is_first, call, expected) in CALLS {
        let told = if *is_first {
            answer(rt, alloc, shared, *call, &mut last, first)
        } else {
            answer(rt, alloc, shared, *call, &mut other, second)
        };
        expect_told(rt, told, expected);
    }
}

#[test]
fn calls_and_answers(rt: HostRuntime) {
    let alloc = rt.alloc();
    let mut locked = new_locked(&rt, alloc);
    run_all(
        &rt,
        alloc,
        &locked.shared,
        &mut locked.first,
        &mut locked.second,
    );
    expect_number(&rt, close(&rt, alloc, locked), 8);
}
