//! Scenes of one and of two workers.
use crate::plays::{Played, play_job};
use crate::scenes::{Does, Move, Scene, Who};
use ks_assign::{Placing, Wants};
use ks_edge::Act;
use ks_hash::Murmur3;
use ks_task_step::StepsBy;
use std::alloc::Global;
use std::process::Abort;
use std::sync::Wait;
use std::thread::Threads;

/// An order before its customer. Task 0_0 reads the orders (topic 1) and the responses (3), task 1_0 the customers (0) and the
/// subscriptions (2).
pub const ORDER: &str =
    r#"{"app":"s","topics":{"customers":1,"orders":1},"nodes":[{"name":"o","op":"table","topic":"orders"},{"name":"c","op":"table","topic":"customers"},{"name":"e","op":"fk_join","left":"o","right":"c","fk":"cust","kind":"inner","set":{"amt":{"left":"amt"},"region":{"right":"region"}}}],"print":["e"]}
{"topic":"orders","key":"o1","value":{"cust":"c1","amt":5}}
{"topic":"customers","key":"c1","value":{"region":"eu"}}
"#;

pub const SHOWN: &str = "settled\ntable e 1\n[\"o1\",{\"amt\":5,\"region\":\"eu\"}]\n";

/// No standbys; who is far behind counts as caught up.
const SOON: Wants = Wants {
    standbys: 0,
    lag: 10_000,
    warmups: 2,
};

/// Both workers are of one instance.
pub const TOGETHER: Placing = Placing {
    threads: 2,
    wants: SOON,
};

/// Each is of an instance of its own.
const APART: Placing = Placing {
    threads: 1,
    wants: SOON,
};

/// Each is of an instance of its own, and no standbys are wanted; who lacks two slots of a task's changelogs isn't caught up.
const APART_WARM: Placing = Placing {
    threads: 1,
    wants: Wants {
        standbys: 0,
        lag: 1,
        warmups: 2,
    },
};

/// What is told of a worker that lost all that it had.
pub const LOST: &str = "no member, epoch 0, generation 0";

/// What is told of a first member that has read the order.
pub const ORDER_IN_WORK: &str =
    "member, epoch 1, generation 1, task 0_0 at 1 0 dirty, task 1_0 at 0 0";

/// What is told of it once it has read the customer too.
pub const BOTH_IN_WORK: &str =
    "member, epoch 1, generation 1, task 0_0 at 1 0 dirty, task 1_0 at 1 0 dirty";

/// What is told of it once it has committed both.
pub const BOTH_AT_REST: &str = "member, epoch 1, generation 1, task 0_0 at 1 0, task 1_0 at 1 0";

/// The step of its first turn before which the first worker decides on its commit, once it has read both topics: the turn has 12 steps, the
/// further act 3, and the commit adds 3 partitions, appends to them, and sends the offsets of two tasks.
const DECIDING: u32 = 23;

/// One worker does each act: it restores its tasks after a crash, drops a dirty one and takes it anew, and commits all, so that the drain
/// has nothing to do.
const ALONE: Scene<'static> = Scene {
    moves: &[
        (Who::First, Does::Turn(Act::Work(0)), ORDER_IN_WORK),
        (Who::First, Does::Act(Act::Work(0)), BOTH_IN_WORK),
        (Who::First, Does::Act(Act::Commit), BOTH_AT_REST),
        (Who::First, Does::Act(Act::Crash), LOST),
        (
            Who::First,
            Does::Turn(Act::Work(0)),
            "member, epoch 2, generation 2, task 0_0 at 1 0, task 1_0 at 1 2 dirty",
        ),
        (
            Who::First,
            Does::Act(Act::Abort),
            "member, epoch 2, generation 2, task 0_0 at 1 0",
        ),
        (
            Who::First,
            Does::Turn(Act::Work(3)),
            "member, epoch 2, generation 2, task 0_0 at 1 0, task 1_0 at 1 2 dirty",
        ),
        (
            Who::First,
            Does::Act(Act::Commit),
            "member, epoch 2, generation 2, task 0_0 at 1 0, task 1_0 at 1 2",
        ),
        (
            Who::First,
            Does::Turn(Act::Pump),
            "member, epoch 2, generation 2, task 0_0 at 1 0, task 1_0 at 1 2",
        ),
        (
            Who::First,
            Does::Act(Act::Work(1)),
            "member, epoch 2, generation 2, task 0_0 at 1 2 dirty, task 1_0 at 1 2",
        ),
        (
            Who::First,
            Does::Act(Act::Commit),
            "member, epoch 2, generation 2, task 0_0 at 1 2, task 1_0 at 1 2",
        ),
        (
            Who::First,
            Does::Act(Act::Probe),
            "member, epoch 2, generation 2, task 0_0 at 1 2, task 1_0 at 1 2",
        ),
        (
            Who::First,
            Does::Turn(Act::Stop),
            "member, epoch 2, generation 3, task 0_0 at 1 2, task 1_0 at 1 2",
        ),
    ],
    placing: TOGETHER,
    cut: None,
    lines: r#"["join",0,1]
["assign",0,1,[["0_0",0],["1_0",0]],[],[],true]
["unpark",0,"0_0",false]
["unpark",0,"1_0",false]
["decide",0,1,true,true]
["join",0,2]
["assign",0,2,[["0_0",0],["1_0",0]],[],[],true]
["unpark",0,"0_0",false]
["unpark",0,"1_0",false]
["unpark",0,"1_0",false]
["decide",0,2,true,true]
["decide",0,2,true,true]
["hold",0,[["0_0",3],["1_0",3]],true]
["assign",0,3,[["0_0",0],["1_0",0]],[],[],true]
"#,
    appends: 0,
};

/// The second worker removes the first one, which has read: its commit is refused, and it has nothing any more.
const TAKEN_OVER: Scene<'static> = Scene {
    moves: &[
        (Who::First, Does::Turn(Act::Work(0)), ORDER_IN_WORK),
        (Who::First, Does::Act(Act::Work(0)), BOTH_IN_WORK),
        (Who::Second, Does::Act(Act::Evict(0)), LOST),
        (Who::First, Does::Act(Act::Commit), LOST),
        (
            Who::Second,
            Does::Turn(Act::Work(0)),
            "member, epoch 1, generation 3, task 0_0 at 1 0 dirty, task 1_0 at 0 0",
        ),
        (
            Who::Second,
            Does::Act(Act::Work(0)),
            "member, epoch 1, generation 3, task 0_0 at 1 0 dirty, task 1_0 at 1 0 dirty",
        ),
        (
            Who::Second,
            Does::Act(Act::Commit),
            "member, epoch 1, generation 3, task 0_0 at 1 0, task 1_0 at 1 0",
        ),
    ],
    placing: TOGETHER,
    cut: None,
    lines: r#"["join",0,1]
["assign",0,1,[["0_0",0],["1_0",0]],[],[],true]
["unpark",0,"0_0",false]
["unpark",0,"1_0",false]
["expire",0,true]
["join",1,3]
["assign",1,3,[["0_0",1],["1_0",1]],[],[],true]
["unpark",0,"0_0",false]
["unpark",0,"1_0",false]
["decide",1,1,true,true]
"#,
    appends: 3,
};

/// The second worker joins while the first one has read, so the first one's commit is refused after it has appended, since its generation is
/// over. It drops what is dirty, and no marker of its abort waits: in its next turn it restores the task, whose changelog it had appended
/// to, and in the same epoch it commits.
const OUTRUN: Scene<'static> = Scene {
    moves: &[
        (Who::First, Does::Turn(Act::Work(0)), ORDER_IN_WORK),
        (
            Who::Second,
            Does::Turn(Act::Pump),
            "member, epoch 1, generation 2, task 1_0 at 0 0",
        ),
        (
            Who::First,
            Does::Act(Act::Commit),
            "member, epoch 1, generation 1, task 1_0 at 0 0",
        ),
        (
            Who::First,
            Does::Turn(Act::Work(0)),
            "member, epoch 1, generation 2, task 0_0 at 1 0 dirty",
        ),
        (
            Who::First,
            Does::Act(Act::Commit),
            "member, epoch 1, generation 2, task 0_0 at 1 0",
        ),
        (
            Who::Second,
            Does::Turn(Act::Work(0)),
            "member, epoch 1, generation 2, task 1_0 at 1 0 dirty",
        ),
        (
            Who::Second,
            Does::Act(Act::Commit),
            "member, epoch 1, generation 2, task 1_0 at 1 0",
        ),
    ],
    placing: TOGETHER,
    cut: None,
    lines: r#"["join",0,1]
["assign",0,1,[["0_0",0],["1_0",0]],[],[],true]
["unpark",0,"0_0",false]
["unpark",0,"1_0",false]
["join",1,2]
["assign",1,2,[["0_0",0],["1_0",1]],[],[],true]
["unpark",0,"1_0",false]
["decide",0,1,false,true]
["park",0,"1_0",true]
["unpark",0,"0_0",false]
["decide",0,1,true,true]
["decide",1,1,true,true]
"#,
    appends: 3,
};

/// The first worker leaves after a commit, and the second one begins.
const LEAVING: &[Move<'static>] = &[
    (Who::First, Does::Turn(Act::Work(0)), ORDER_IN_WORK),
    (Who::First, Does::Act(Act::Work(0)), BOTH_IN_WORK),
    (Who::First, Does::Act(Act::Commit), BOTH_AT_REST),
    (Who::First, Does::Act(Act::Probe), BOTH_AT_REST),
    (
        Who::First,
        Does::Act(Act::Leave),
        "no member, epoch 0, generation 1",
    ),
    (
        Who::Second,
        Does::Turn(Act::Probe),
        "member, epoch 1, generation 4, task 0_0 at 1 0, task 1_0 at 1 0",
    ),
];

/// They are of one instance, so the second takes what is on the shelf.
const LEFT: Scene<'static> = Scene {
    moves: LEAVING,
    placing: TOGETHER,
    cut: None,
    lines: r#"["join",0,1]
["assign",0,1,[["0_0",0],["1_0",0]],[],[],true]
["unpark",0,"0_0",false]
["unpark",0,"1_0",false]
["decide",0,1,true,true]
["hold",0,[["0_0",1],["1_0",1]],true]
["park",0,"0_0",true]
["park",0,"1_0",true]
["expire",0,true]
["join",1,4]
["assign",1,4,[["0_0",1],["1_0",1]],[],[],true]
["unpark",0,"0_0",true]
["unpark",0,"1_0",true]
["hold",1,[["0_0",2],["1_0",2]],true]
"#,
    appends: 3,
};

/// They are of two instances, so the second begins with empty replicas.
const LEFT_AFAR: Scene<'static> = Scene {
    moves: LEAVING,
    placing: APART,
    cut: None,
    lines: r#"["join",0,1]
["assign",0,1,[["0_0",0],["1_0",0]],[],[],true]
["unpark",0,"0_0",false]
["unpark",0,"1_0",false]
["decide",0,1,true,true]
["hold",0,[["0_0",1],["1_0",1]],true]
["park",0,"0_0",true]
["park",0,"1_0",true]
["expire",0,true]
["join",1,4]
["assign",1,4,[["0_0",1],["1_0",1]],[],[],true]
["unpark",1,"0_0",false]
["unpark",1,"1_0",false]
["hold",1,[["0_0",2],["1_0",2]],true]
"#,
    appends: 3,
};

/// The first worker is cut off before it decides on its commit. The second one can't restore a task whose offsets are pending, nor, once it
/// has removed the first one, a task whose changelogs have records that wait for a marker: it keeps the replicas. It writes the three markers,
/// one each time, and restores both tasks in its next turn.
const UNDECIDED: Scene<'static> = Scene {
    moves: &[
        (Who::First, Does::Turn(Act::Work(0)), ""),
        (Who::First, Does::Act(Act::Work(0)), ""),
        (Who::First, Does::Act(Act::Commit), LOST),
        (
            Who::Second,
            Does::Turn(Act::Pump),
            "member, epoch 1, generation 2, replica 1_0 at 0 0",
        ),
        (
            Who::Second,
            Does::Act(Act::Evict(0)),
            "member, epoch 1, generation 2, replica 1_0 at 0 0",
        ),
        (
            Who::Second,
            Does::Turn(Act::Pump),
            "member, epoch 1, generation 3, replica 0_0 at 0 0, replica 1_0 at 0 0",
        ),
        (
            Who::Second,
            Does::Act(Act::Pump),
            "member, epoch 1, generation 3, replica 0_0 at 0 0, replica 1_0 at 0 0",
        ),
        (
            Who::Second,
            Does::Act(Act::Pump),
            "member, epoch 1, generation 3, replica 0_0 at 2 0, replica 1_0 at 0 0",
        ),
        (
            Who::Second,
            Does::Turn(Act::Work(0)),
            "member, epoch 1, generation 3, task 0_0 at 1 0 dirty, task 1_0 at 0 0",
        ),
        (
            Who::Second,
            Does::Act(Act::Work(0)),
            "member, epoch 1, generation 3, task 0_0 at 1 0 dirty, task 1_0 at 1 0 dirty",
        ),
        (
            Who::Second,
            Does::Act(Act::Commit),
            "member, epoch 1, generation 3, task 0_0 at 1 0, task 1_0 at 1 0",
        ),
    ],
    placing: TOGETHER,
    cut: Some((1, DECIDING)),
    lines: "",
    appends: 3,
};

/// A task moves from one instance to another by a warmup that was fed. The second worker is behind with both tasks, so they stay with the
/// first one, and it gets warmups of both; so it is as long as it tells that these have nothing. Once it tells that they are fed, one of the tasks is active
/// there: its replica, which is at the end already, becomes the task, and takes what was left to take.
const MOVED: Scene<'static> = Scene {
    moves: &[
        (Who::First, Does::Turn(Act::Work(0)), ORDER_IN_WORK),
        (Who::First, Does::Act(Act::Work(0)), BOTH_IN_WORK),
        (Who::First, Does::Act(Act::Commit), BOTH_AT_REST),
        (Who::First, Does::Act(Act::Probe), BOTH_AT_REST),
        (
            Who::Second,
            Does::Turn(Act::Probe),
            "member, epoch 1, generation 3, replica 0_0 at 0 0, replica 1_0 at 0 0",
        ),
        (
            Who::First,
            Does::Turn(Act::Pump),
            "member, epoch 1, generation 4, task 0_0 at 1 0, task 1_0 at 1 0",
        ),
        (
            Who::Second,
            Does::Turn(Act::Pump),
            "member, epoch 1, generation 4, replica 0_0 at 2 0, replica 1_0 at 2 0",
        ),
        (
            Who::Second,
            Does::Act(Act::Probe),
            "member, epoch 1, generation 4, replica 0_0 at 2 0, replica 1_0 at 2 0",
        ),
        (
            Who::Second,
            Does::Turn(Act::Pump),
            "member, epoch 1, generation 5, task 1_0 at 1 0",
        ),
        (
            Who::First,
            Does::Turn(Act::Pump),
            "member, epoch 1, generation 5, task 0_0 at 1 0",
        ),
        (
            Who::Second,
            Does::Turn(Act::Work(0)),
            "member, epoch 1, generation 5, task 1_0 at 1 2 dirty",
        ),
        (
            Who::Second,
            Does::Act(Act::Commit),
            "member, epoch 1, generation 5, task 1_0 at 1 2",
        ),
        (
            Who::First,
            Does::Turn(Act::Work(0)),
            "member, epoch 1, generation 5, task 0_0 at 1 2 dirty",
        ),
        (
            Who::First,
            Does::Act(Act::Commit),
            "member, epoch 1, generation 5, task 0_0 at 1 2",
        ),
    ],
    placing: APART_WARM,
    cut: None,
    lines: r#"["join",0,1]
["assign",0,1,[["0_0",0],["1_0",0]],[],[],true]
["unpark",0,"0_0",false]
["unpark",0,"1_0",false]
["decide",0,1,true,true]
["hold",0,[["0_0",1],["1_0",1]],true]
["join",1,3]
["assign",1,3,[["0_0",0],["1_0",0]],[],[["0_0",1],["1_0",1]],true]
["unpark",1,"0_0",false]
["unpark",1,"1_0",false]
["hold",1,[["0_0",0],["1_0",0]],true]
["assign",0,4,[["0_0",0],["1_0",0]],[],[["0_0",1],["1_0",1]],true]
["hold",1,[["0_0",2],["1_0",2]],true]
["assign",1,5,[["0_0",0],["1_0",1]],[],[],true]
["park",1,"0_0",true]
["park",0,"1_0",true]
["decide",1,1,true,true]
["decide",0,1,true,true]
"#,
    appends: 0,
};

/// Tasks and replicas are lent. A task answers for its own keys, where it has taken nothing since its commit; a replica that isn't fed has
/// nothing, and is behind.
const LENT: Scene<'static> = Scene {
    moves: &[
        (Who::First, Does::Turn(Act::Work(0)), ""),
        (
            Who::First,
            Does::Lend(0),
            "0_0 isn't clean and holds 1 0, 1_0 isn't 0_0 and holds 0 0, ",
        ),
        (Who::First, Does::Act(Act::Work(0)), ""),
        (Who::First, Does::Act(Act::Commit), ""),
        (
            Who::First,
            Does::Lend(1),
            "0_0 has 5 at 1 and holds 0 0, 1_0 isn't 0_0 and holds 0 0, ",
        ),
        (
            Who::First,
            Does::Lend(2),
            "0_0 is at 1 and holds 0 0, 1_0 isn't 0_0 and holds 0 0, ",
        ),
        (Who::First, Does::Act(Act::Probe), ""),
        (Who::Second, Does::Turn(Act::Probe), ""),
        (
            Who::Second,
            Does::Lend(0),
            "replica 0_0 has nothing at 0, replica 1_0 isn't 0_0, ",
        ),
        (
            Who::Second,
            Does::Lend(1),
            "replica 0_0 is at 0, replica 1_0 isn't 0_0, ",
        ),
        (Who::First, Does::Turn(Act::Pump), ""),
        (Who::Second, Does::Turn(Act::Pump), ""),
        (
            Who::Second,
            Does::Lend(2),
            "replica 0_0 has 5 at 2, replica 1_0 isn't 0_0, ",
        ),
    ],
    placing: APART_WARM,
    cut: None,
    lines: "",
    appends: 3,
};

const SCENES: &[Scene<'static>] = &[
    ALONE, TAKEN_OVER, OUTRUN, LEFT, LEFT_AFAR, UNDECIDED, MOVED, LENT,
];

/// Both texts are the same.
pub fn expect_text<R: Abort>(rt: &R, found: &[u8], expected: &[u8]) {
    assert_eq!(rt; found, expected);
}

/// Plays a scene over the order and its customer, whose tables the drain leaves at the latest.
pub fn play_order<R: Threads + Wait + Sync + Abort>(
    rt: &R,
    alloc: Global,
    scene: &Scene,
) -> Played {
    let played = play_job::<StepsBy<Murmur3>, R>(rt, alloc, ORDER, scene);
    expect_text(rt, &played.text, SHOWN.as_bytes());
    played
}

/// Plays a scene, and looks at its lines and at what the drain appended.
pub fn expect<R: Threads + Wait + Sync + Abort>(rt: &R, alloc: Global, scene: &Scene) {
    let Played { lines, appends, .. } = play_order(rt, alloc, scene);
    if !scene.lines.is_empty() {
        expect_text(rt, &lines, scene.lines.as_bytes());
    }
    assert!(rt; appends == scene.appends);
}

#[test]
fn scenes_of_workers(rt: HostRuntime) {
    for scene in SCENES {
        expect(&rt, rt.alloc(), scene);
    }
}
