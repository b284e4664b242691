//! A gate that does as it was told beforehand.
ghost use Rattle.std.specs.Prelude.{◌≡◌, ◌+◌, ◌==◌, if◌then◌else◌};
ghost use Rattle.ks_edge.specs.Causes.{counted};
ghost use Rattle.ks_edge.specs.Counts.{stops_of, calls_of, one_if, HasRoom};
ghost use Rattle.ks_edge.specs.Script.{after_reset, act_of, after_next, turn_of, cut_of, after_cut};

use crate::gate::{Act, Gate, TurnView};
use std::marker::Model;

/// The listed acts, then `Stop`; cut at the listed pairs of turn and step.
///
/// The turn is the number of calls `cut(0)` since the last reset, the present one included. A reset begins the script anew.
#[derive(Drop)]
pub struct ScriptGate {
    acts: Vec<Act>,
    cuts: Vec<(u64, u32)>,
    turn: u64,
    asked: u64,
    stops: u64,
    calls: u64,
    made: u64,
}

impl Model for ScriptGate {
    ghost use Rattle.ks_edge.specs.Script.{Script};

    ghost Value = { Script };

    ghost view = { λ s. record {
      acts = s.acts.items;
      cuts = s.cuts.items;
      turn = s.turn;
      asked = s.asked;
      stops = s.stops;
      calls = s.calls;
      made = s.made;
    } };
}

impl ScriptGate {
    /// A gate with this script, as after a reset.
    pub fn new(acts: Vec<Act>, cuts: Vec<(u64, u32)>) -> Self
        ensures { result ≡ record {
          acts = acts.items;
          cuts = cuts.items;
          turn = 0;
          asked = 0;
          stops = 0;
          calls = 0;
          made = 0;
        } }
    {
        ScriptGate {
            acts,
            cuts,
            turn: 0,
            asked: 0,
            stops: 0,
            calls: 0,
            made: 0,
        }
    }
}

impl Gate for ScriptGate {
    ghost asked = { λ s. s.asked };

    ghost stops = { λ s. s.stops };

    ghost calls = { λ s. s.calls };

    ghost cuts = { λ s. s.made };

    fn reset(&mut self, _worker: u8, _seed: Option<u64>, _interval: u32)
        ensures asked { self.new.asked ≡ 0 }
        ensures stops { self.new.stops ≡ 0 }
        ensures calls { self.new.calls ≡ 0 }
        ensures cuts { self.new.made ≡ 0 }
        ensures after { self.new ≡ after_reset self.old }
    {
        self.turn = 0;
        self.asked = 0;
        self.stops = 0;
        self.calls = 0;
        self.made = 0;
    }

    fn next(&mut self, _view: TurnView) -> Act
        requires { HasRoom self.old.asked self.old.stops self.old.calls self.old.made }
        ensures asked { self.new.asked ≡ self.old.asked + 1 }
        ensures stops { self.new.stops ≡ self.old.stops + stops_of result }
        ensures calls { self.new.calls ≡ self.old.calls + calls_of result }
        ensures cuts { self.new.made ≡ self.old.made }
        ensures act { result ≡ act_of self.old }
        ensures after { self.new ≡ after_next self.old }
    {
        let act = match self.acts.get(self.asked as usize) {
            Some(act) => *act,
            None => Act::Stop,
        };
        self.asked += 1;
        match act {
            Act::Stop => self.stops += 1,
            Act::Probe | Act::Leave => self.calls += 1,
            Act::Evict(worker) if worker <= 15 => self.calls += 1,
            _ => {}
        }
        act
    }

    fn cut(&mut self, step: u32) -> bool
        requires { HasRoom self.old.asked self.old.stops self.old.calls self.old.made }
        ensures asked { self.new.asked ≡ self.old.asked }
        ensures stops { self.new.stops ≡ self.old.stops }
        ensures calls { self.new.calls ≡ self.old.calls }
        ensures cuts { self.new.made ≡ self.old.made + one_if result }
        ensures cut { result ≡ cut_of self.old step }
        ensures after { self.new ≡ after_cut self.old step }
    {
        self.turn = next_turn(self.turn, step);
        let cut = self.cuts.contains(&(self.turn, step));
        if cut {
            self.made += 1;
        }
        cut
    }
}

// The turn in which this step is asked for.
fn next_turn(turn: u64, step: u32) -> u64
    ensures { result ≡ (if step == 0 then counted turn else turn) }
{
    if step == 0 {
        turn.saturating_add(1)
    } else {
        turn
    }
}
