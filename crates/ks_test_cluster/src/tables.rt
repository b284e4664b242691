//! Tables of calls with their answers.

ghost use Rattle.std.specs.Prelude.{◌≡◌, ◌∷◌, [], IfOk};
ghost use Rattle.ks_record.specs.Records.{record_seen};
ghost use Rattle.ks_test_cluster.specs.Ours.{IsOurs};

use crate::calls::{Call, answer};
use crate::commit::{Stage, reach};
use crate::copying::{Copying, new_cluster};
use ks_cluster::Cluster;
use ks_history::Entry;
use ks_journal::push_journal;
use ks_record::{Rec, RecordList, RecordRef, SharedRecords};
use std::alloc::{AllocError, Global};
use std::process::Abort;

/// One record, alone and as a list.
#[derive(Drop)]
pub struct OneRecord {
    pub rec: Rec,
    pub list: SharedRecords,
}

fn list_of(alloc: Global, one: RecordRef<'_>) -> Result<SharedRecords, AllocError>
    ensures { IfOk result (λ l. l ≡ record_seen one.entry ∷ []) }
{
    let mut list = RecordList::new(alloc);
    list.push(one)?;
    SharedRecords::of(alloc, list)
}

/// The record of key a with the row `{"n":1}`; want of memory ends the test.
pub fn record<R: Abort>(rt: &R, alloc: Global) -> OneRecord
    ensures { result.list ≡ result.rec ∷ [] }
{
    let one = RecordRef {
        key: Some(b"a".as_slice()),
        value: Some(b"\x01\x01n\x00\x00\x00\x00\x00\x00\x00\x00\x01".as_slice()),
        ts: 0,
    };
    let Ok(rec) = Rec::of(alloc, one) else {
        rt.abort()
    };
    match list_of(alloc, one) {
        Ok(list) => OneRecord { rec, list },
        Err(_) => rt.abort(),
    }
}

/// A worker comes back after it was expired, and finds its transaction aborted.
const ZOMBIE: &[(Call, &str)] = &[
    (Call::Produce { topic: 0 }, "0"),
    (Call::Init { w: 0 }, "1"),
    (Call::Join { w: 0 }, "1"),
    (
        Call::Assign {
            w: 0,
            generation: 1,
        },
        "true",
    ),
    (
        Call::Add {
            w: 0,
            epoch: 1,
            topic: 1,
        },
        "done",
    ),
    (
        Call::Append {
            w: 0,
            epoch: 1,
            number: 0,
            topic: 1,
        },
        "0",
    ),
    (
        Call::SendOffset {
            w: 0,
            epoch: 1,
            generation: 1,
            offset: 1,
        },
        "done",
    ),
    (Call::Init { w: 1 }, "1"),
    (Call::Join { w: 1 }, "2"),
    (
        Call::Assign {
            w: 1,
            generation: 2,
        },
        "true",
    ),
    (
        Call::Committed {
            w: 1,
            generation: 2,
        },
        "producer 0 has offsets pending for the task",
    ),
    (
        Call::ExpireAndCommit { w: 0, epoch: 1 },
        "true, the producer's epoch is 2",
    ),
    (Call::MarkNext { w: 0 }, "1/0 false"),
    (
        Call::Assign {
            w: 1,
            generation: 3,
        },
        "true",
    ),
    (
        Call::Committed {
            w: 1,
            generation: 3,
        },
        "0 at 0\n",
    ),
    (
        Call::Fetch {
            topic: 1,
            from: 0,
            max: 10,
        },
        "0 to 2",
    ),
    (Call::End { topic: 1 }, "2"),
    (Call::MarkNext { w: 0 }, "none"),
    (Call::Hold { w: 1, position: 2 }, "done"),
    (
        Call::Status,
        "generation 3, members 1, markers 0\nworker 1 holds 0_0 at 2\n1/0 ends at 2\n",
    ),
    (
        Call::Probe {
            w: 1,
            generation: 3,
        },
        "4",
    ),
    (
        Call::Probe {
            w: 1,
            generation: 3,
        },
        "the generation is 4",
    ),
];

/// The journal of these calls, a line for each that writes.
const ZOMBIE_JOURNAL: &str = r#"["produce",0,0,["61","01016e000000000000000001",0],0]
["init",0,1]
["join",0,1]
["assign",0,1,[["0_0",0]],[],[],true]
["add",0,1,1,0,true]
["append",0,1,0,"0_0",1,0,[["61","01016e000000000000000001",0]],0]
["offsets",0,1,1,"0_0",[[0,1]],[[0,1]],0,true]
["init",1,1]
["join",1,2]
["assign",1,2,[["0_0",1]],[],[],true]
["expire",0,true]
["decide",0,1,true,[2,2]]
["mark",0,[1,0,false]]
["assign",1,3,[["0_0",1]],[],[],true]
["mark",0,null]
["hold",1,[["0_0",2]],true]
["probe",1,3,4]
["probe",1,3,[5,4]]
"#;

/// The journal of one commit.
const COMMIT_JOURNAL: &str = r#"["produce",0,0,["61","01016e000000000000000001",0],0]
["init",0,1]
["join",0,1]
["assign",0,1,[["0_0",0]],[],[],true]
["add",0,1,1,0,true]
["append",0,1,0,"0_0",1,0,[["61","01016e000000000000000001",0]],0]
["offsets",0,1,1,"0_0",[[0,1]],[[0,1]],0,true]
["decide",0,1,true,true]
["mark",0,[1,0,true]]
"#;

/// What else may be asked, and an abort.
const OTHERS: &[(Call, &str)] = &[
    (Call::Park { instance: 3 }, "done"),
    (Call::Unpark { instance: 2 }, "false"),
    (Call::Unpark { instance: 3 }, "true"),
    (Call::Unpark { instance: 3 }, "false"),
    (Call::Init { w: 2 }, "1"),
    (
        Call::Abort { w: 2, epoch: 1 },
        "there is no such transaction",
    ),
    (
        Call::Add {
            w: 2,
            epoch: 1,
            topic: 0,
        },
        "done",
    ),
    (Call::Pending, "1"),
    (
        Call::Append {
            w: 2,
            epoch: 1,
            number: 0,
            topic: 1,
        },
        "there is no such transaction",
    ),
    (
        Call::Append {
            w: 2,
            epoch: 1,
            number: 1,
            topic: 0,
        },
        "the next number is 0",
    ),
    (Call::Abort { w: 2, epoch: 1 }, "done"),
    (
        Call::Abort { w: 2, epoch: 1 },
        "the transaction was decided already, commit: false",
    ),
    (
        Call::Add {
            w: 2,
            epoch: 1,
            topic: 1,
        },
        "1 markers wait",
    ),
    (Call::Pending, "1"),
    (Call::MarkNext { w: 2 }, "0/0 false"),
    (Call::Pending, "0"),
    (
        Call::Committed {
            w: 2,
            generation: 0,
        },
        "the task belongs to None",
    ),
];

/// Before the decision.
const BEFORE: &[(Call, &str)] = &[
    (Call::Pending, "1"),
    (Call::Offset, "0"),
    (Call::Decided { topic: 1 }, "0"),
    (
        Call::Fetch {
            topic: 0,
            from: 0,
            max: 10,
        },
        "1 to 1",
    ),
];

/// After the decision to commit, and before its marker.
const BETWEEN: &[(Call, &str)] = &[
    (Call::Pending, "1"),
    (Call::Offset, "1"),
    (Call::Decided { topic: 1 }, "1"),
    (
        Call::Fetch {
            topic: 1,
            from: 0,
            max: 10,
        },
        "0 to 0",
    ),
    (
        Call::Committed {
            w: 0,
            generation: 1,
        },
        "0 at 1\n",
    ),
];

/// After the marker.
const AFTER: &[(Call, &str)] = &[
    (Call::Pending, "0"),
    (Call::Late, "0"),
    (
        Call::Fetch {
            topic: 1,
            from: 0,
            max: 10,
        },
        "1 to 2",
    ),
    (Call::End { topic: 1 }, "2"),
    (Call::Produce { topic: 0 }, "1"),
];

/// Both texts are the same.
pub fn expect_text<R: Abort>(rt: &R, found: &[u8], expected: &[u8]) {
    assert_eq!(rt; found, expected);
}

// Makes a call, whose answer is this.
fn run_call<R: Abort>(
    rt: &R,
    alloc: Global,
    cluster: &mut Cluster<Copying>,
    recs: &OneRecord,
    call: &Call,
    expected: &str,
)
    requires { IsOurs cluster.old }
    ensures { IsOurs cluster.new }
{
    match answer(alloc, cluster, recs, call) {
        Ok(told) => expect_text(rt, told.as_bytes(), expected.as_bytes()),
        Err(_) => rt.abort(),
    }
}

// Makes the calls of a table, one after another.
fn run_all<R: Abort>(
    rt: &R,
    alloc: Global,
    cluster: &mut Cluster<Copying>,
    recs: &OneRecord,
    table: &[(Call, &str)],
)
    requires { IsOurs cluster.old }
{
    for (call, expected) in table {
        run_call(rt, alloc, cluster, recs, call, expected);
    }
}

// A new cluster comes as far as this, and then the calls of a table have their answers.
fn run_from<R: Abort>(
    rt: &R,
    alloc: Global,
    cluster: &mut Cluster<Copying>,
    recs: &OneRecord,
    stage: Stage,
    table: &[(Call, &str)],
)
    requires ours { IsOurs cluster.old }
    requires new { cluster.old.journal ≡ [] }
    requires one { recs.now.list ≡ recs.now.rec ∷ [] }
{
    match reach(alloc, cluster, recs, stage) {
        Ok(()) => run_all(rt, alloc, cluster, recs, table),
        Err(_) => rt.abort(),
    }
}

/// A new cluster; want of memory ends the test.
pub fn fresh<R: Abort>(rt: &R, alloc: Global) -> Cluster<Copying>
    ensures ours { IsOurs result }
    ensures new { result.journal ≡ [] }
{
    match new_cluster(alloc) {
        Ok(cluster) => cluster,
        Err(_) => rt.abort(),
    }
}

// The same on a cluster that goes then.
fn run_table<R: Abort>(
    rt: &R,
    alloc: Global,
    recs: &OneRecord,
    stage: Stage,
    table: &[(Call, &str)],
)
    requires { recs.now.list ≡ recs.now.rec ∷ [] }
{
    let mut cluster = fresh(rt, alloc);
    run_from(rt, alloc, &mut cluster, recs, stage, table);
    drop(cluster);
}

// The journal tells this, a line for each call that writes.
fn expect_journal<R: Abort>(rt: &R, alloc: Global, entries: &[Entry], expected: &str) {
    let mut text = Vec::new(alloc);
    push_journal(&mut text, entries).expect(rt, "memory");
    expect_text(rt, text.as_slice(), expected.as_bytes());
}

#[test]
fn calls_and_answers(rt: HostRuntime) {
    let recs = record(&rt, rt.alloc());
    run_table(&rt, rt.alloc(), &recs, Stage::New, OTHERS);
    run_table(&rt, rt.alloc(), &recs, Stage::Sent, BEFORE);
    run_table(&rt, rt.alloc(), &recs, Stage::Decided, BETWEEN);
    run_table(&rt, rt.alloc(), &recs, Stage::Marked, AFTER);
    drop(recs);
}

#[test]
fn zombie_and_its_journal(rt: HostRuntime) {
    let recs = record(&rt, rt.alloc());
    let mut cluster = fresh(&rt, rt.alloc());
    run_all(&rt, rt.alloc(), &mut cluster, &recs, ZOMBIE);
    drop(recs);
    expect_journal(&rt, rt.alloc(), cluster.journal(), ZOMBIE_JOURNAL);
    drop(cluster);
}

#[test]
fn one_commit(rt: HostRuntime) {
    let recs = record(&rt, rt.alloc());
    let mut cluster = fresh(&rt, rt.alloc());
    run_from(&rt, rt.alloc(), &mut cluster, &recs, Stage::Marked, &[]);
    drop(recs);
    let journal = cluster.into_journal();
    expect_journal(&rt, rt.alloc(), journal.as_slice(), COMMIT_JOURNAL);
    assert!(rt; journal.len() == 9);
}
