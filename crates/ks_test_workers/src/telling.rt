//! What a worker has and knows, and what happened in its group, as texts. Want of memory ends the test.
use ks_cluster::Work;
use ks_edge::Gate;
use ks_history::{Entry, Request};
use ks_iq::{Answer, Ask, IqFault, active, stale};
use ks_journal::push_journal;
use ks_record::{Key, Name, TaskId};
use ks_row::{FieldRef, Row};
use ks_standby::Replica;
use ks_task::Task;
use ks_topo::Topology;
use ks_worker_client::Member;
use ks_worker_state::{WorkerState, changelogs_in, inputs_in};
use std::alloc::{AllocError, Global};
use std::process::Abort;

fn push<R: Abort>(rt: &R, text: &mut String, words: &str) {
    text.push_str(words).expect(rt, "memory");
}

fn push_number<R: Abort>(rt: &R, text: &mut String, words: &str, number: u64) {
    write!(text, "{words}{number}").expect(rt, "memory");
}

fn push_id<R: Abort>(rt: &R, text: &mut String, words: &str, id: TaskId) {
    push_number(rt, text, words, u64::from(id.sub));
    push_number(rt, text, "_", u64::from(id.part));
}

// A task with its positions in its inputs.
fn push_task<R: Abort>(rt: &R, text: &mut String, topology: &Topology, task: &Task) {
    let id = task.id();
    push_id(rt, text, ", task ", id);
    push(rt, text, " at");
    for topic in inputs_in(topology, id.sub) {
        push_number(rt, text, " ", task.input_position(*topic));
    }
    if !task.is_clean() {
        push(rt, text, " dirty");
    }
}

// A replica with its positions in its changelogs.
fn push_replica<R: Abort>(rt: &R, text: &mut String, topology: &Topology, replica: &Replica) {
    let id = replica.id();
    push_id(rt, text, ", replica ", id);
    push(rt, text, " at");
    for topic in changelogs_in(topology, id.sub) {
        push_number(rt, text, " ", replica.position(*topic));
    }
}

fn push_member<R: Abort>(rt: &R, text: &mut String, member: &Member) {
    push(
        rt,
        text,
        if member.is_member {
            "member"
        } else {
            "no member"
        },
    );
    push_number(rt, text, ", epoch ", member.epoch);
    push_number(rt, text, ", generation ", member.generation);
}

fn push_tasks<R: Abort>(rt: &R, text: &mut String, topology: &Topology, tasks: &[Task]) {
    for task in tasks {
        push_task(rt, text, topology, task);
    }
}

fn push_replicas<R: Abort>(rt: &R, text: &mut String, topology: &Topology, replicas: &[Replica]) {
    for replica in replicas {
        push_replica(rt, text, topology, replica);
    }
}

/// What a worker has and knows.
pub fn told<R: Abort, W: Work, G: Gate>(
    rt: &R,
    alloc: Global,
    topology: &Topology,
    state: &WorkerState<W, G>,
) -> String {
    let mut text = String::new(alloc);
    push_member(rt, &mut text, &state.member);
    push_tasks(rt, &mut text, topology, &state.tasks);
    push_replicas(rt, &mut text, topology, &state.replicas);
    text
}

fn push_amount<R: Abort>(rt: &R, text: &mut String, row: &Row) {
    match row.get(b"amt") {
        Some(FieldRef::Int(amount)) => { write!(text, " has {amount}").expect(rt, "memory") },
        _ => push(rt, text, " has another row"),
    }
}

fn push_found<R: Abort>(rt: &R, text: &mut String, answer: &Answer) {
    match &answer.value {
        Some(row) => push_amount(rt, text, row),
        None => push(rt, text, " has nothing"),
    }
    push_number(rt, text, " at ", answer.position);
}

fn push_fault<R: Abort>(rt: &R, text: &mut String, fault: &IqFault) {
    match *fault {
        IqFault::WrongTask { owner } => push_id(rt, text, " isn't ", owner),
        IqFault::NotClean => push(rt, text, " isn't clean"),
        IqFault::Behind { position } => push_number(rt, text, " is at ", position),
        _ => push(rt, text, " can't be asked"),
    }
}

fn push_answer<R: Abort>(
    rt: &R,
    text: &mut String,
    answer: Result<Result<Answer, IqFault>, AllocError>,
) {
    match &answer {
        Ok(Ok(answer)) => push_found(rt, text, answer),
        Ok(Err(fault)) => push_fault(rt, text, fault),
        Err(_) => rt.abort(),
    }
    drop(answer);
}

fn push_held<R: Abort>(rt: &R, text: &mut String, topology: &Topology, task: &Task) {
    push(rt, text, " and holds");
    for log in changelogs_in(topology, task.id().sub) {
        push_number(rt, text, " ", task.cached(*log) as u64);
    }
}

fn order<R: Abort>(rt: &R, alloc: Global) -> Ask {
    let Ok(Some(node)) = Name::of(alloc, b"o") else {
        rt.abort()
    };
    let Ok(Some(key)) = Key::of(alloc, b"o1") else {
        rt.abort()
    };
    Ask {
        node,
        key,
        start: None,
    }
}

fn push_active<R: Abort>(
    rt: &R,
    alloc: Global,
    text: &mut String,
    topology: &Topology,
    tasks: &[Task],
    ask: &Ask,
    at_least: u64,
) {
    for task in tasks {
        push_id(rt, text, "", task.id());
        push_answer(rt, text, active(alloc, topology, task, ask, at_least));
        push_held(rt, text, topology, task);
        push(rt, text, ", ");
    }
}

fn push_stale<R: Abort>(
    rt: &R,
    alloc: Global,
    text: &mut String,
    topology: &Topology,
    replicas: &[Replica],
    ask: &Ask,
    at_least: u64,
) {
    for replica in replicas {
        push_id(rt, text, "replica ", replica.id());
        push_answer(rt, text, stale(alloc, topology, replica, ask, at_least));
        push(rt, text, ", ");
    }
}

/// What the tasks and replicas of a worker answer, which are asked for the order o1 at this position or a later one.
pub fn lent<R: Abort, W: Work, G: Gate>(
    rt: &R,
    alloc: Global,
    topology: &Topology,
    state: &WorkerState<W, G>,
    at_least: u64,
) -> String {
    let mut text = String::new(alloc);
    let ask = order(rt, alloc);
    push_active(rt, alloc, &mut text, topology, &state.tasks, &ask, at_least);
    push_stale(
        rt,
        alloc,
        &mut text,
        topology,
        &state.replicas,
        &ask,
        at_least,
    );
    drop(ask);
    text
}

// Whether it decides on offsets, or tells of members, places, positions or the shelf.
fn is_shown(request: &Request) -> bool {
    match request {
        Request::Decide { .. } | Request::Join { .. } | Request::Expire { .. } => true,
        Request::Assign { .. } => true,
        Request::Hold { .. } | Request::Park { .. } | Request::Unpark { .. } => true,
        _ => false,
    }
}

/// The lines of a journal that tell of offsets that were decided on, of members, places, positions and the shelf.
pub fn lines<R: Abort>(rt: &R, alloc: Global, entries: &[Entry]) -> Vec<u8> {
    let mut text = Vec::new(alloc);
    for i in 0..entries.len() {
        if is_shown(&entries[i].request) {
            push_journal(&mut text, &entries[i..i + 1]).expect(rt, "memory");
        }
    }
    text
}
