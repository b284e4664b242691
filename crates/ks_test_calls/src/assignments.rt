//! Worked rows: which assignments are good. Tasks are those of subtopology 0, named by their partition.
use crate::replies::expect_number;
use ks_assign::{Client, Held, Wants, are_clients, are_tasks_apart, assign, check};
use ks_record::{Assignment, Seq, TaskId};
use std::alloc::Global;
use std::process::Abort;

const ZERO: TaskId = TaskId { sub: 0, part: 0 };

const ONE: TaskId = TaskId { sub: 0, part: 1 };

const TASKS: [TaskId; 2] = [ZERO, ONE];

/// Clients, each by its instance and its workers, what they lack, and how many warmups are wanted; no standbys.
#[derive(Clone, Copy)]
struct Row {
    clients: &'static [(u8, &'static [u8])],
    held: &'static [Held],
    wants: Wants,
}

/// Client 0 is caught up with both tasks.
const CAUGHT_UP: &[Held] = &[
    Held {
        instance: 0,
        task: ZERO,
        lag: 0,
    },
    Held {
        instance: 0,
        task: ONE,
        lag: 0,
    },
];

/// Client 0 is, and client 1 with none.
const BEHIND: &[Held] = &[
    Held {
        instance: 0,
        task: ZERO,
        lag: 0,
    },
    Held {
        instance: 0,
        task: ONE,
        lag: 0,
    },
    Held {
        instance: 1,
        task: ZERO,
        lag: 20_000,
    },
    Held {
        instance: 1,
        task: ONE,
        lag: 20_000,
    },
];

/// One client with workers 0 and 1, caught up with both tasks.
const ALONE: Row = Row {
    clients: &[(0, &[0, 1])],
    held: CAUGHT_UP,
    wants: TWO_WARMUPS,
};

/// Client 0 with worker 0 is caught up with both tasks, client 1 with worker 1 with none; two warmups are wanted.
const TWO: Row = Row {
    clients: &[(0, &[0]), (1, &[1])],
    held: BEHIND,
    wants: TWO_WARMUPS,
};

/// The same, and one warmup is wanted.
const FEW: Row = Row {
    clients: &[(0, &[0]), (1, &[1])],
    held: BEHIND,
    wants: Wants {
        standbys: 0,
        lag: 10_000,
        warmups: 1,
    },
};

const TWO_WARMUPS: Wants = Wants {
    standbys: 0,
    lag: 10_000,
    warmups: 2,
};

fn client<R: Abort>(rt: &R, alloc: Global, instance: u8, workers: &[u8]) -> Client {
    let workers = Vec::from_slice(alloc, workers).expect(rt, "memory");
    Client {
        instance,
        workers: Seq::of(workers),
    }
}

fn clients_of<R: Abort>(rt: &R, alloc: Global, row: &Row) -> Vec<Client> {
    let mut clients = Vec::new(alloc);
    for (instance, workers) in row.clients {
        let client = client(rt, alloc, *instance, workers);
        clients.push(client).expect(rt, "memory");
    }
    clients
}

/// Bit 2 * t + w says that task t stands at worker w: each bit, and its task and worker.
const PLACES: &[(u32, u8, u8)] = &[(1, 0, 0), (2, 0, 1), (4, 1, 0), (8, 1, 1)];

fn places<R: Abort>(rt: &R, alloc: Global, mask: u32) -> Seq<(TaskId, u8)> {
    let mut made = Vec::new(alloc);
    for (bit, part, worker) in PLACES {
        if mask & *bit != 0 {
            let task = TaskId {
                sub: 0,
                part: *part,
            };
            made.push((task, *worker)).expect(rt, "memory");
        }
    }
    Seq::of(made)
}

fn is_checked(clients: &[Client], row: &Row, a: Assignment) -> bool {
    let is_good = check(&TASKS, clients, row.held, &row.wants, &a);
    drop(a);
    is_good
}

// Whether active tasks and warmups by two masks are good.
fn is_good<R: Abort>(
    rt: &R,
    alloc: Global,
    clients: &[Client],
    row: &Row,
    active: u32,
    warmup: u32,
) -> bool {
    let a = Assignment {
        active: places(rt, alloc, active),
        standby: Seq::new(alloc),
        warmup: places(rt, alloc, warmup),
    };
    is_checked(clients, row, a)
}

fn count_good<R: Abort>(rt: &R, alloc: Global, clients: &[Client], row: &Row) -> u32 {
    let mut count: u32 = 0;
    for both in 0..256_u32 {
        if is_good(rt, alloc, clients, row, both % 16, both / 16) {
            count = count.wrapping_add(1);
        }
    }
    count
}

fn is_assigned<R: Abort>(rt: &R, alloc: Global, clients: &[Client], row: &Row) -> bool {
    if !(are_clients(clients) && are_tasks_apart(&TASKS)) {
        return false;
    }
    match assign(alloc, &TASKS, clients, row.held, &row.wants) {
        Ok(a) => is_checked(clients, row, a),
        Err(_) => rt.abort(),
    }
}

/// A row, active tasks and warmups, and whether these are good. 1: task 0 at worker 0; 2: at worker 1; 4: task 1 at worker 0; 8: at worker 1.
const ROWS: &[(Row, u32, u32, bool)] = &[
    (ALONE, 9, 0, true),
    (ALONE, 6, 0, true),
    (ALONE, 5, 0, false),
    (TWO, 5, 10, true),
    (TWO, 5, 2, false),
    (TWO, 5, 8, false),
    (TWO, 9, 10, false),
    (FEW, 5, 2, true),
    (FEW, 5, 8, true),
    (FEW, 5, 10, false),
    (FEW, 5, 0, false),
];

fn expect_row<R: Abort>(rt: &R, alloc: Global, row: &Row, active: u32, warmup: u32, want: bool) {
    let clients = clients_of(rt, alloc, row);
    let is_good = is_good(rt, alloc, &clients, row, active, warmup);
    expect_number(rt, u32::from(is_good), u32::from(want));
    expect_number(rt, u32::from(is_assigned(rt, alloc, &clients, row)), 1);
}

#[test]
fn worked_rows(rt: HostRuntime) {
    for (row, active, warmup, want) in ROWS {
        expect_row(&rt, rt.alloc(), row, *active, *warmup, *want);
    }
}

fn expect_count<R: Abort>(rt: &R, alloc: Global, row: &Row, want: u32) {
    let clients = clients_of(rt, alloc, row);
    expect_number(rt, count_good(rt, alloc, &clients, row), want);
}

#[test]
fn nothing_else_is_good(rt: HostRuntime) {
    expect_count(&rt, rt.alloc(), &TWO, 1);
    expect_count(&rt, rt.alloc(), &FEW, 2);
}
