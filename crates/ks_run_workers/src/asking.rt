//! A question that is asked beside the workers.
ghost use Rattle.std.specs.Prelude.{◌≡◌, ◌≤◌, [], OnOk, false};
ghost use Rattle.ks_topo.specs.Topologies.{draft_of};
ghost use Rattle.ks_run_workers.specs.Members.{pass_key};
ghost use Rattle.ks_iq.specs.Answered.{last_position};
ghost use Rattle.ks_run_workers.specs.Asking.{MayAsk, HasAsked};

use ks_cluster::Work;
use ks_growing::Pass;
use ks_iq::{Answer, Ask, Reader};
use ks_shared::{Shared, SharedState};
use ks_topo::Topology;
use std::alloc::{AllocError, Global};
use std::sync::Wait;
use std::sync::atomic::{AtomicBool, Ordering};
use std::time::Duration;

/// How often the question is asked beside the workers.
pub const TIMES: u8 = 16;

/// Who asks a question beside the workers, what was answered, and whether it ran out of memory.
#[derive(Drop)]
pub struct Asker<W: Work> {
    pub reader: Reader<W>,
    pub ask: Ask,
    pub answers: Vec<Answer>,
    pub is_starved: bool,
}

impl<W: Work> Asker<W> {
    /// Who asks this question through a pass, and hasn't yet. Takes no memory.
    pub fn new(alloc: Global, ask: Ask, pass: Pass<SharedState<W>>) -> Asker<W>
        ensures pass { result.reader.pass ≡ pass }
        ensures ask { result.ask ≡ ask }
        ensures none { result.answers.items ≡ [] }
        ensures bare { result.reader.replicas.items ≡ [] }
    {
        Asker {
            reader: Reader::new(alloc, pass),
            ask,
            answers: Vec::new(alloc),
            is_starved: false,
        }
    }
}

/// The position of the last of these answers; 0 of none. Takes no memory.
pub fn last_position(answers: &[Answer]) -> u64
    ensures { result ≡ last_position answers.now }
{
    match answers.last() {
        Some(answer) => answer.position,
        None => 0,
    }
}

// Rests before the ask of this number, twice as long as before the one before it, until the workers have ended. Takes no memory.
fn rest_before<R: Wait, W: Work>(rt: &R, shared: &Shared<W>, number: u8, working: &AtomicBool)
    requires { number ≤ 31 }
{
    for _ in 0..(1u32 << (number as u32)) {
        if !working.load(Ordering::SeqCst) {
            return;
        }
        shared.rest(rt, Duration::from_millis(1));
    }
}

// Asks once more, from the last answer's position on.
fn ask_once<R: Wait, W: Work>(
    rt: &R,
    alloc: Global,
    topology: &Topology,
    shared: &Shared<W>,
    asker: &mut Asker<W>,
) -> Result<(), AllocError>
    requires { MayAsk W.plan shared.now.growing.id (draft_of topology.now) asker.old }
    ensures asked { OnOk result (HasAsked W.plan (draft_of topology.now) 1 asker.old asker.new) }
    ensures key { pass_key asker.new.reader.pass ≡ pass_key asker.old.reader.pass }
{
    let at_least = last_position(&asker.answers);
    let reader = &mut asker.reader;
    match reader.ask(rt, alloc, topology, shared, &asker.ask, at_least)? {
        Ok(answer) => {
            asker.answers.push(answer)?;
            Ok(())
        }
        Err(_) => unreachable!(),
    }
}

// Asks 16 times. Want of memory is the one error.
fn ask_all<R: Wait, W: Work>(
    rt: &R,
    alloc: Global,
    topology: &Topology,
    shared: &Shared<W>,
    asker: &mut Asker<W>,
    working: &AtomicBool,
) -> Result<(), AllocError>
    requires { MayAsk W.plan shared.now.growing.id (draft_of topology.now) asker.old }
    ensures asked { OnOk result (HasAsked W.plan (draft_of topology.now) 16 asker.old asker.new) }
    ensures key { pass_key asker.new.reader.pass ≡ pass_key asker.old.reader.pass }
{
    for number in 0..TIMES {
        rest_before(rt, shared, number, working);
        ask_once(rt, alloc, topology, shared, asker)?;
    }
    Ok(())
}

/// Asks 16 times, each time from the last answer's position on, and rests longer each time while the workers work; so the answers spread
/// over their time. Who runs out of memory is starved.
pub fn ask_often<R: Wait, W: Work>(
    rt: &R,
    alloc: Global,
    topology: &Topology,
    shared: &Shared<W>,
    asker: &mut Asker<W>,
    working: &AtomicBool,
)
    requires { MayAsk W.plan shared.now.growing.id (draft_of topology.now) asker.old }
    ensures asked { asker.new.is_starved ≡ false
        → HasAsked W.plan (draft_of topology.now) 16 asker.old asker.new }
    ensures key { pass_key asker.new.reader.pass ≡ pass_key asker.old.reader.pass }
{
    let answer = ask_all(rt, alloc, topology, shared, asker, working);
    asker.is_starved = answer.is_err();
}
