//! Topologies from their lines, with their layout: subtopologies, internal topics, drain order, tasks. (No run prints it.)
use crate::rows::expect_text;
use ks_job::{JobFault, JobItem, JobReader};
use ks_topo::{Draft, Topology};
use std::alloc::{AllocError, Global};
use std::process::Abort;

/// Each is `SUBTOPOLOGIES OF THE NODES | TOPICS | DRAIN ORDER | INPUTS BY SUBTOPOLOGY | CHANGELOGS BY SUBTOPOLOGY | TASKS`, and the line.
const LAYOUTS: &[(&str, &str)] = &[
    (
        "0 1 2 3 | t/2 app-a-repartition/2 app-b-repartition/2 app-c-repartition/2 app-s-changelog/2 app-a-changelog/2 app-b-changelog/2 app-c-changelog/2 | 0 1 2 3 | 0;1;2;3 | 4;5;6;7 | 0_0 0_1 1_0 1_1 2_0 2_1 3_0 3_1",
        r#"{"app":"app","topics":{"t":2},"nodes":[{"name":"s","op":"table","topic":"t"},{"name":"a","op":"count","from":"s","by":"g"},{"name":"b","op":"sum","from":"a","by":"h","field":"f"},{"name":"c","op":"count","from":"b","by":"k"}],"print":[]}"#,
    ),
    (
        "0 0 | t/3 app-j-subscription-registration-topic/3 app-j-subscription-response-topic/3 app-x-changelog/3 app-j-changelog/3 app-j-subscription-store-changelog/3 | 0 1 2 | 0,1,2 | 3,4,5 | 0_0 0_1 0_2",
        r#"{"app":"app","topics":{"t":3},"nodes":[{"name":"x","op":"table","topic":"t"},{"name":"j","op":"fk_join","left":"x","right":"x","fk":"f","kind":"left","set":{"a":{"left":"a"}}}],"print":[]}"#,
    ),
    (
        "0 0 0 | t/2 app-g-repartition/2 app-x-changelog/2 app-g-changelog/2 app-j-changelog/2 | 0 1 | 0,1 | 2,3,4 | 0_0 0_1",
        r#"{"app":"app","topics":{"t":2},"nodes":[{"name":"x","op":"table","topic":"t"},{"name":"g","op":"count","from":"x","by":"r"},{"name":"j","op":"join","left":"x","right":"g","kind":"outer","set":{"a":{"left":"a"}}}],"print":[]}"#,
    ),
    (
        "0 0 0 0 0 | a/1 b/1 c/1 d/1 app-x-changelog/1 app-y-changelog/1 app-z-changelog/1 app-j-changelog/1 app-k-changelog/1 | 0 1 2 | 0,1,2 | 4,5,6,7,8 | 0_0",
        r#"{"app":"app","topics":{"d":1,"c":1,"b":1,"a":1},"nodes":[{"name":"x","op":"table","topic":"c"},{"name":"y","op":"table","topic":"a"},{"name":"z","op":"table","topic":"b"},{"name":"j","op":"join","left":"y","right":"z","kind":"inner","set":{"a":{"left":"a"}}},{"name":"k","op":"join","left":"j","right":"x","kind":"left","set":{"a":{"left":"a"}}}],"print":[]}"#,
    ),
    (
        "0 1 2 | t/1 app-z-repartition/1 app-b-repartition/1 app-s-changelog/1 app-z-changelog/1 app-b-changelog/1 | 0 1 2 | 0;1;2 | 3;4;5 | 0_0 1_0 2_0",
        r#"{"app":"app","topics":{"t":1},"nodes":[{"name":"s","op":"table","topic":"t"},{"name":"z","op":"count","from":"s","by":"g"},{"name":"b","op":"count","from":"s","by":"g"}],"print":[]}"#,
    ),
    (
        "0 1 0 0 | a/2 b/3 c/2 app-x-changelog/2 app-y-changelog/3 app-z-changelog/2 app-j-changelog/2 | 0 1 2 | 0,2;1 | 3,5,6;4 | 0_0 0_1 1_0 1_1 1_2",
        r#"{"app":"app","topics":{"a":2,"b":3,"c":2},"nodes":[{"name":"x","op":"table","topic":"a"},{"name":"y","op":"table","topic":"b"},{"name":"z","op":"table","topic":"c"},{"name":"j","op":"join","left":"x","right":"z","kind":"inner","set":{"a":{"left":"a"}}}],"print":[]}"#,
    ),
    (
        "0 0 1 0 | t/2 app-n-repartition/2 app-n-changelog/2 app-w-changelog/2 | 0 1 | 0;1 | 3;2 | 0_0 0_1 1_0 1_1",
        r#"{"app":"app","topics":{"t":2},"nodes":[{"name":"s","op":"stream","topic":"t"},{"name":"k","op":"select_key","from":"s","key":"k"},{"name":"n","op":"count","from":"k"},{"name":"w","op":"windowed_count","from":"s","size":5}],"print":[]}"#,
    ),
    (
        "0 1 0 2 3 | customers/4 orders/8 load-e-subscription-registration-topic/4 load-e-subscription-response-topic/8 load-totals-repartition/8 load-orders_per_region-repartition/8 load-o-changelog/8 load-c-changelog/4 load-e-changelog/8 load-e-subscription-store-changelog/4 load-totals-changelog/8 load-orders_per_region-changelog/8 | 0 1 2 3 4 5 | 1,3;0,2;4;5 | 6,8;7,9;10;11 | 0_0 0_1 0_2 0_3 0_4 0_5 0_6 0_7 1_0 1_1 1_2 1_3 2_0 2_1 2_2 2_3 2_4 2_5 2_6 2_7 3_0 3_1 3_2 3_3 3_4 3_5 3_6 3_7",
        r#"{"app":"load","topics":{"customers":4,"orders":8},"nodes":[{"name":"o","op":"table","topic":"orders"},{"name":"c","op":"table","topic":"customers"},{"name":"e","op":"fk_join","left":"o","right":"c","fk":"cust","kind":"inner","set":{"amt":{"left":"amt"},"region":{"right":"region"}}},{"name":"totals","op":"sum","from":"e","by":"region","field":"amt"},{"name":"orders_per_region","op":"count","from":"e","by":"region"}],"print":["totals","orders_per_region"]}"#,
    ),
    (
        " |  |  |  |  | ",
        r#"{"app":"a","topics":{},"nodes":[],"print":[]}"#,
    ),
];

// A reader found no fault.
fn expect_read<R: Abort>(rt: &R, read: Result<Result<(), JobFault>, AllocError>) {
    let has_read = matches!(&read, Ok(Ok(())));
    drop(read);
    assert!(rt; has_read);
}

// What a line has; the test ends where it is faulty.
fn items_of<R: Abort>(rt: &R, alloc: Global, line: &str) -> Vec<JobItem> {
    let mut items = Vec::new(alloc);
    let mut reader = JobReader::new(alloc);
    expect_read(rt, reader.feed(line.as_bytes(), &mut items));
    expect_read(rt, reader.finish(&mut items));
    items
}

// The topology of a line, which may have a fault.
fn draft_of<R: Abort>(rt: &R, alloc: Global, line: &str) -> Draft {
    let mut items = items_of(rt, alloc, line);
    match items.pop() {
        Some(JobItem::Topology { draft, .. }) => draft,
        _ => rt.abort(),
    }
}

// The topology of a line; the test ends where it has a fault.
fn topology_of<R: Abort>(rt: &R, alloc: Global, line: &str) -> Topology {
    match Topology::build(alloc, draft_of(rt, alloc, line)) {
        Ok(Ok(topology)) => topology,
        _ => rt.abort(),
    }
}

fn push_number(text: &mut Vec<u8>, alloc: Global, number: u64) -> Result<(), AllocError> {
    text.extend_from_slice(number.to_string(alloc)?.as_bytes())
}

fn push_numbers(
    text: &mut Vec<u8>,
    alloc: Global,
    numbers: &[u16],
    between: u8,
) -> Result<(), AllocError> {
    for i in 0..numbers.len() {
        if i > 0 {
            text.push(between)?;
        }
        push_number(text, alloc, numbers[i] as u64)?;
    }
    Ok(())
}

fn push_subs(text: &mut Vec<u8>, alloc: Global, topology: &Topology) -> Result<u8, AllocError> {
    let mut subs: u8 = 0;
    let nodes = topology.nodes();
    for i in 0..nodes.len() {
        if i > 0 {
            text.push(b' ')?;
        }
        push_number(text, alloc, nodes[i].sub as u64)?;
        subs = subs.max(nodes[i].sub.saturating_add(1));
    }
    Ok(subs)
}

fn push_topics(text: &mut Vec<u8>, alloc: Global, topology: &Topology) -> Result<(), AllocError> {
    let topics = topology.topics();
    for i in 0..topics.len() {
        if i > 0 {
            text.push(b' ')?;
        }
        text.extend_from_slice(topics[i].name.as_slice())?;
        text.push(b'/')?;
        push_number(text, alloc, topics[i].parts as u64)?;
    }
    Ok(())
}

fn push_tasks(text: &mut Vec<u8>, alloc: Global, topology: &Topology) -> Result<(), AllocError> {
    let tasks = topology.tasks();
    for i in 0..tasks.len() {
        if i > 0 {
            text.push(b' ')?;
        }
        push_number(text, alloc, tasks[i].sub as u64)?;
        text.push(b'_')?;
        push_number(text, alloc, tasks[i].part as u64)?;
    }
    Ok(())
}

fn push_inputs(
    text: &mut Vec<u8>,
    alloc: Global,
    topology: &Topology,
    subs: u8,
) -> Result<(), AllocError> {
    for sub in 0..subs {
        if sub > 0 {
            text.push(b';')?;
        }
        push_numbers(text, alloc, topology.inputs(sub), b',')?;
    }
    text.extend_from_slice(b" | ")
}

fn push_changelogs(
    text: &mut Vec<u8>,
    alloc: Global,
    topology: &Topology,
    subs: u8,
) -> Result<(), AllocError> {
    for sub in 0..subs {
        if sub > 0 {
            text.push(b';')?;
        }
        push_numbers(text, alloc, topology.changelogs(sub), b',')?;
    }
    text.extend_from_slice(b" | ")
}

fn push_layout(text: &mut Vec<u8>, alloc: Global, topology: &Topology) -> Result<(), AllocError> {
    let subs = push_subs(text, alloc, topology)?;
    text.extend_from_slice(b" | ")?;
    push_topics(text, alloc, topology)?;
    text.extend_from_slice(b" | ")?;
    push_numbers(text, alloc, topology.drain_order(), b' ')?;
    text.extend_from_slice(b" | ")?;
    push_inputs(text, alloc, topology, subs)?;
    push_changelogs(text, alloc, topology, subs)?;
    push_tasks(text, alloc, topology)
}

// The topology of a line has this layout.
fn expect_layout<R: Abort>(rt: &R, alloc: Global, expected: &str, line: &str) {
    let topology = topology_of(rt, alloc, line);
    let mut text = Vec::new(alloc);
    push_layout(&mut text, alloc, &topology).expect(rt, "memory");
    drop(topology);
    expect_text(rt, text.as_slice(), expected.as_bytes());
}

#[test]
fn layouts(rt: HostRuntime) {
    for (expected, line) in LAYOUTS {
        expect_layout(&rt, rt.alloc(), expected, line);
    }
}
