//! Two passes on two threads. Want of memory ends the test.
ghost use Rattle.std.specs.Prelude.{◌≡◌};
ghost use Rattle.ks_test_shared.specs.Ours.{IsOurs};

use crate::calls::{fetch, init, produce};
use crate::passes::{Locked, close, expect_number, new_locked};
use ks_growing::Pass;
use ks_record::{Rec, RecordRef};
use ks_shared::{Shared, SharedState};
use ks_test_cluster::copying::Copying;
use std::alloc::{AllocError, Global};
use std::process::Abort;
use std::sync::Wait;
use std::thread::join_mut;

// A hundred records, whose times are 0 to 99.
fn feed<R: Wait + Abort>(
    rt: &R,
    alloc: Global,
    shared: &Shared<Copying>,
    pass: &mut Pass<SharedState<Copying>>,
)
    requires ours { IsOurs shared.now.growing.id pass.old }
    requires first { pass.old.number ≡ 0 }
    ensures ours { IsOurs shared.now.growing.id pass.new }
    ensures number { pass.new.number ≡ pass.old.number }
{
    for ts in 0..100u64 {
        let empty = RecordRef {
            key: None,
            value: None,
            ts,
        };
        let Ok(rec) = Rec::of(alloc, empty) else {
            rt.abort()
        };
        if produce(rt, alloc, shared, &rec, pass).is_err() {
            rt.abort()
        }
    }
}

// A hundred epochs of worker 1.
fn renew<R: Wait + Abort>(
    rt: &R,
    alloc: Global,
    shared: &Shared<Copying>,
    pass: &mut Pass<SharedState<Copying>>,
)
    requires ours { IsOurs shared.now.growing.id pass.old }
    ensures ours { IsOurs shared.now.growing.id pass.new }
    ensures number { pass.new.number ≡ pass.old.number }
{
    let mut last = 0;
    for _ in 0..100u64 {
        if init(rt, alloc, shared, 1, &mut last, pass).is_err() {
            rt.abort()
        }
    }
}

// The records are all there, in their order.
fn expect_all<R: Abort>(rt: &R, recs: &[(u64, Rec)]) {
    expect_number(rt, recs.len() as u64, 100);
    let mut expected = 0u64;
    for (offset, rec) in recs {
        expect_number(rt, *offset, expected);
        expect_number(rt, rec.ts(), expected);
        expected = expected.wrapping_add(1);
    }
}

// The same of what was fetched.
fn expect_fetched<R: Abort>(rt: &R, fetched: Result<(Vec<(u64, Rec)>, u64), AllocError>) {
    match &fetched {
        Ok((recs, _)) => expect_all(rt, recs),
        Err(_) => rt.abort(),
    }
    drop(fetched);
}

#[test]
fn two_threads(rt: HostRuntime) {
    let alloc = rt.alloc();
    let Locked {
        shared,
        mut first,
        mut second,
        mut third,
    } = new_locked(&rt, alloc);
    join_mut(
        &rt,
        &mut || feed(&rt, alloc, &shared, &mut first),
        &mut || renew(&rt, alloc, &shared, &mut third),
    );
    expect_fetched(&rt, fetch(&rt, alloc, &shared, 0, &mut second));
    let locked = Locked {
        shared,
        first,
        second,
        third,
    };
    expect_number(&rt, close(&rt, alloc, locked), 200);
}
