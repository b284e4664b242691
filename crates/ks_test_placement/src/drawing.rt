//! Groups and changes, drawn at random.
ghost use Rattle.std.specs.Prelude.{◌<◌};

use ks_assign::{Assignment, Client, Held, Wants};
use ks_record::{Seq, TaskId};
use rand_core::SeedableRng;
use rand_core::utils::NextWord;
use rand_pcg::Lcg64Xsh32;
use std::alloc::{AllocError, Global};

const LAGS: [u64; 4] = [0, 10_000, 10_001, 20_000];

/// Tasks, the clients with their workers, what is held, and what is wanted.
#[derive(Drop)]
pub struct Setting {
    pub tasks: Vec<TaskId>,
    pub clients: Vec<Client>,
    pub held: Vec<Held>,
    pub wants: Wants,
}

/// Numbers, drawn one after another.
#[derive(Drop)]
pub struct Draws {
    generator: Lcg64Xsh32,
}

impl Draws {
    /// The draws of a seed.
    pub fn new(seed: u64) -> Draws {
        Draws {
            generator: Lcg64Xsh32::seed_from_u64(seed),
        }
    }

    // A number below `count`.
    fn below(&mut self, count: u8) -> u8
        requires { 0 < count }
        ensures { result < count }
    {
        (self.generator.next_word() / 256 % u32::from(count)) as u8
    }
}

// Tasks of two subtopologies, so many.
fn tasks_of(alloc: Global, count: u16) -> Result<Vec<TaskId>, AllocError> {
    let mut tasks = Vec::new(alloc);
    for i in 0..count {
        tasks.push(TaskId {
            sub: (i % 16) as u8,
            part: (i / 16 % 256) as u8,
        })?;
    }
    Ok(tasks)
}

// A client with `count` workers from `first` on.
fn client_of(alloc: Global, instance: u8, first: u8, count: u8) -> Result<Client, AllocError> {
    let mut workers = Vec::new(alloc);
    for i in 0..count {
        workers.push(first.wrapping_add(i))?;
    }
    Ok(Client {
        instance,
        workers: Seq::of(workers),
    })
}

// Up to four clients with up to three workers each.
fn clients_of(alloc: Global, draws: &mut Draws) -> Result<Vec<Client>, AllocError> {
    let mut clients = Vec::new(alloc);
    for i in 0..draws.below(4) + 1 {
        let count = draws.below(3) + 1;
        clients.push(client_of(alloc, i, i.wrapping_mul(4), count)?)?;
    }
    Ok(clients)
}

// A lag for each client and task.
fn held_of(
    alloc: Global,
    draws: &mut Draws,
    clients: &[Client],
    tasks: &[TaskId],
) -> Result<Vec<Held>, AllocError> {
    let mut held = Vec::new(alloc);
    for c in clients {
        for t in tasks {
            let lag = LAGS[draws.below(4) as usize];
            held.push(Held {
                instance: c.instance,
                task: *t,
                lag,
            })?;
        }
    }
    Ok(held)
}

/// A small group.
pub fn make_setting(alloc: Global, draws: &mut Draws) -> Result<Setting, AllocError> {
    let tasks = tasks_of(alloc, u16::from(draws.below(9)))?;
    let clients = clients_of(alloc, draws)?;
    let held = held_of(alloc, draws, &clients, &tasks)?;
    let wants = Wants {
        standbys: draws.below(4),
        lag: 10_000,
        warmups: draws.below(4),
    };
    Ok(Setting {
        tasks,
        clients,
        held,
        wants,
    })
}

/// 1,000 tasks, and four clients with four workers each.
pub fn large_setting(alloc: Global) -> Result<Setting, AllocError> {
    let mut draws = Draws::new(1);
    let tasks = tasks_of(alloc, 1000)?;
    let mut clients = Vec::new(alloc);
    for i in 0..4_u8 {
        clients.push(client_of(alloc, i, i * 4, 4)?)?;
    }
    let held = held_of(alloc, &mut draws, &clients, &tasks)?;
    let wants = Wants {
        standbys: 3,
        lag: 10_000,
        warmups: 2,
    };
    Ok(Setting {
        tasks,
        clients,
        held,
        wants,
    })
}

// A worker of some client, or one of none.
fn any_worker(draws: &mut Draws, clients: &[Client]) -> u8 {
    let c = draws.below(4) as usize;
    let k = draws.below(3) as usize;
    match clients.get(c) {
        Some(client) => match client.workers.as_slice().get(k) {
            Some(worker) => *worker,
            None => 0,
        },
        None => 15,
    }
}

// Any of the tasks at any worker; nothing where no such task is there.
fn add_place(
    draws: &mut Draws,
    places: &mut Vec<(TaskId, u8)>,
    s: &Setting,
) -> Result<(), AllocError> {
    let k = draws.below(9) as usize;
    let worker = any_worker(draws, &s.clients);
    if k < s.tasks.len() {
        places.push((s.tasks[k], worker))?;
    }
    Ok(())
}

// One of the places at any worker.
fn move_place(draws: &mut Draws, places: &mut [(TaskId, u8)], s: &Setting) {
    let k = draws.below(9) as usize;
    let worker = any_worker(draws, &s.clients);
    if k < places.len() {
        places[k].1 = worker;
    }
}

// The list after a change: one place more, one moved, one less, or none.
fn changed_places(
    alloc: Global,
    draws: &mut Draws,
    old: Seq<(TaskId, u8)>,
    s: &Setting,
) -> Result<Seq<(TaskId, u8)>, AllocError> {
    let mut places = old.into_vec();
    match draws.below(9) {
        0 => add_place(draws, &mut places, s)?,
        1 | 2 | 3 => move_place(draws, places.as_mut_slice(), s),
        4 => {
            let _last = places.pop();
        }
        _ => {}
    }
    Ok(Seq::of(places))
}

/// The assignment after a change of each list.
pub fn changed(
    alloc: Global,
    draws: &mut Draws,
    a: Assignment,
    s: &Setting,
) -> Result<Assignment, AllocError> {
    Ok(Assignment {
        active: changed_places(alloc, draws, a.active, s)?,
        standby: changed_places(alloc, draws, a.standby, s)?,
        warmup: changed_places(alloc, draws, a.warmup, s)?,
    })
}
