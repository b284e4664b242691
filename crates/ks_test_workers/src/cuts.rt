//! A commit that is cut off at each of its steps, and a later turn at its first.
use crate::scenes::{Does, Move, Scene, Who};
use crate::workers::{BOTH_AT_REST, LOST, TOGETHER, expect, play_order};
use ks_edge::Act;

/// How many steps the worker's turn, a further act and a commit have together.
const STEPS: u32 = 28;

/// The worker reads both topics and is cut off, at the latest in its commit.
const CUT: &[Move<'static>] = &[
    (Who::First, Does::Turn(Act::Work(0)), ""),
    (Who::First, Does::Act(Act::Work(0)), ""),
    (Who::First, Does::Act(Act::Commit), LOST),
];

/// It isn't cut off.
const COMMITTED: &[Move<'static>] = &[
    (Who::First, Does::Turn(Act::Work(0)), ""),
    (Who::First, Does::Act(Act::Work(0)), ""),
    (Who::First, Does::Act(Act::Commit), BOTH_AT_REST),
];

/// The worker is cut off before the first step of its second turn, since the steps count from 0 in each turn; in the third it begins anew.
const CUT_LATER: Scene<'static> = Scene {
    moves: &[
        (
            Who::First,
            Does::Turn(Act::Work(2)),
            "member, epoch 1, generation 1, task 0_0 at 0 0, task 1_0 at 1 0 dirty",
        ),
        (Who::First, Does::Turn(Act::Work(0)), LOST),
        (
            Who::First,
            Does::Turn(Act::Work(0)),
            "member, epoch 2, generation 2, task 0_0 at 1 0 dirty, task 1_0 at 0 0",
        ),
        (
            Who::First,
            Does::Act(Act::Work(0)),
            "member, epoch 2, generation 2, task 0_0 at 1 0 dirty, task 1_0 at 1 0 dirty",
        ),
        (
            Who::First,
            Does::Act(Act::Commit),
            "member, epoch 2, generation 2, task 0_0 at 1 0, task 1_0 at 1 0",
        ),
    ],
    placing: TOGETHER,
    cut: Some((2, 0)),
    lines: r#"["join",0,1]
["assign",0,1,[["0_0",0],["1_0",0]],[],[],true]
["unpark",0,"0_0",false]
["unpark",0,"1_0",false]
["join",0,2]
["assign",0,2,[["0_0",0],["1_0",0]],[],[],true]
["unpark",0,"0_0",false]
["unpark",0,"1_0",false]
["decide",0,2,true,true]
"#,
    appends: 3,
};

/// Wherever it is cut off it loses all that it had, and the drain brings the tables.
#[test]
fn a_commit_is_cut_off_at_each_step(rt: HostRuntime) {
    for step in 0..STEPS + 1 {
        let scene = Scene {
            moves: if step < STEPS { CUT } else { COMMITTED },
            placing: TOGETHER,
            cut: Some((1, step)),
            lines: "",
            appends: 0,
        };
        drop(play_order(&rt, rt.alloc(), &scene));
    }
}

/// The steps count from 0 in each turn.
#[test]
fn a_later_turn_is_cut_off_at_its_first_step(rt: HostRuntime) {
    expect(&rt, rt.alloc(), &CUT_LATER);
}
