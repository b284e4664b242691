//! A gate that works by a rule, with accidents where there is a seed.
ghost use Rattle.std.specs.Prelude.{◌≡◌, ◌+◌, ◌/◌, ◌%◌, ◌==◌, bit_xor, option_map, None, Some, false};
ghost use Rattle.ks_edge.specs.Counts.{stops_of, calls_of, one_if, HasRoom};
ghost use Rattle.ks_edge.specs.Steady.{generator_of, draw, at_reset, steady_act, act_by, drawn_act, next_act, is_work, after_act, is_cut, after_question};

use crate::gate::{Act, Gate, TurnView};
use rand_core::SeedableRng;
use rand_core::utils::NextWord;
use rand_pcg::Lcg64Xsh32;
use std::marker::Model;

// After how many changes a new gate commits; a reset sets it.
const INTERVAL: u32 = 100;

/// Works, commits where that is due, and ends when there is nothing to do. With a seed 9 acts of 64 are drawn in place of the rule's:
/// three pumps, and one each of crash, abort, evict, probe, leave and commit; and one step of 128 is cut off. The same seed, worker and
/// views give the same acts.
#[derive(Drop)]
pub struct SteadyGate {
    generator: Option<Lcg64Xsh32>,
    interval: u32,
    worked: bool,
    asked: u64,
    stops: u64,
    calls: u64,
    made: u64,
}

impl Model for SteadyGate {
    ghost use Rattle.ks_edge.specs.Steady.{Steady};

    ghost Value = { Steady };

    ghost view = { λ s. record {
      generator = s.generator;
      interval = s.interval;
      worked = s.worked;
      asked = s.asked;
      stops = s.stops;
      calls = s.calls;
      made = s.made;
    } };
}

impl SteadyGate {
    /// A gate as after a reset for worker 0 without a seed, which commits after 100 changes.
    pub fn new() -> Self
        ensures { result ≡ at_reset 0 None 100 }
    {
        SteadyGate {
            generator: None,
            interval: INTERVAL,
            worked: false,
            asked: 0,
            stops: 0,
            calls: 0,
            made: 0,
        }
    }
}

// The generator of a seed and a worker.
#[tactic(auto, unfolding(crate::specs::Steady::generator_of))]
fn seeded_by(seed: u64, worker: u8) -> Lcg64Xsh32
    ensures { result ≡ generator_of (bit_xor seed worker) }
{
    Lcg64Xsh32::seed_from_u64(seed ^ u64::from(worker))
}

// The next word.
#[tactic(auto, unfolding(crate::specs::Steady::draw))]
fn draw(generator: &mut Lcg64Xsh32) -> u32
    ensures word { result ≡ (draw generator.old).0 }
    ensures after { generator.new ≡ (draw generator.old).1 }
{
    generator.next_word()
}

// The act of the steady rule.
fn steady_act(interval: u32, worked: bool, view: TurnView) -> Act
    ensures { result ≡ steady_act interval worked view }
{
    if view.dirty >= u64::from(interval) {
        return Act::Commit;
    }
    if view.dry >= 1 && view.dirty > 0 {
        return Act::Commit;
    }
    if view.dry >= 16 && !view.feeding {
        return Act::Stop;
    }
    if view.dry >= 1 && worked {
        return Act::Pump;
    }
    Act::Work((view.turn % (1 << 32)) as u32)
}

// The act by the word that was drawn.
fn drawn_act(word: u32, steady: Act) -> Act
    ensures { result ≡ drawn_act word steady }
{
    match word % 64 {
        0 => Act::Crash,
        1 => Act::Abort,
        2 => Act::Evict((word / 64 % 16) as u8),
        3 => Act::Probe,
        4 => Act::Leave,
        5..=7 => Act::Pump,
        8 => Act::Commit,
        _ => steady,
    }
}

// Whether the act is to work.
fn is_work(act: Act) -> bool
    ensures { result ≡ is_work act }
{
    match act {
        Act::Work(_) => true,
        _ => false,
    }
}

impl Gate for SteadyGate {
    ghost asked = { λ s. s.asked };

    ghost stops = { λ s. s.stops };

    ghost calls = { λ s. s.calls };

    ghost cuts = { λ s. s.made };

    fn reset(&mut self, worker: u8, seed: Option<u64>, interval: u32)
        ensures asked { self.new.asked ≡ 0 }
        ensures stops { self.new.stops ≡ 0 }
        ensures calls { self.new.calls ≡ 0 }
        ensures cuts { self.new.made ≡ 0 }
        ensures after { self.new ≡ at_reset worker seed interval }
    {
        self.generator = match seed {
            Some(seed) => Some(seeded_by(seed, worker)),
            None => None,
        };
        self.interval = interval;
        self.worked = false;
        self.asked = 0;
        self.stops = 0;
        self.calls = 0;
        self.made = 0;
    }

    fn next(&mut self, view: TurnView) -> Act
        requires { HasRoom self.old.asked self.old.stops self.old.calls self.old.made }
        ensures asked { self.new.asked ≡ self.old.asked + 1 }
        ensures stops { self.new.stops ≡ self.old.stops + stops_of result }
        ensures calls { self.new.calls ≡ self.old.calls + calls_of result }
        ensures cuts { self.new.made ≡ self.old.made }
        ensures act { result ≡ next_act self.old view }
        ensures after { self.new ≡ after_act self.old view }
    {
        let steady = steady_act(self.interval, self.worked, view);
        let act = match &mut self.generator {
            Some(generator) => drawn_act(draw(generator), steady),
            None => steady,
        };
        self.worked = is_work(act);
        self.asked += 1;
        match act {
            Act::Stop => self.stops += 1,
            Act::Probe | Act::Leave => self.calls += 1,
            Act::Evict(worker) if worker <= 15 => self.calls += 1,
            _ => {}
        }
        act
    }

    fn cut(&mut self, _step: u32) -> bool
        requires { HasRoom self.old.asked self.old.stops self.old.calls self.old.made }
        ensures asked { self.new.asked ≡ self.old.asked }
        ensures stops { self.new.stops ≡ self.old.stops }
        ensures calls { self.new.calls ≡ self.old.calls }
        ensures cuts { self.new.made ≡ self.old.made + one_if result }
        ensures cut { result ≡ is_cut self.old }
        ensures after { self.new ≡ after_question self.old }
    {
        let cut = match &mut self.generator {
            Some(generator) => draw(generator) % 128 == 0,
            None => false,
        };
        if cut {
            self.made += 1;
        }
        cut
    }
}
