//! The gate of a worker, asked before each step of a turn.
ghost use Rattle.std.specs.Prelude.{◌≡◌, ◌+◌, IfErr};
ghost use Rattle.ks_worker_client.specs.declared.halt.Halt.TheVariants.{Cut};
ghost use Rattle.ks_edge.specs.Counts.{stops_of, calls_of};
ghost use Rattle.ks_worker_client.specs.Turns.{HasRoomFor, counts_after};

use crate::halt::Halt;
use ks_edge::{Act, Gate, TurnView};
use std::marker::Model;

/// The gate of a worker, with the number of the next step of its turn.
#[derive(Drop)]
pub struct TurnGate<G: Gate> {
    gate: G,
    step: u32,
}

impl<G: Gate> Model for TurnGate<G> {
    ghost use Rattle.ks_worker_client.specs.Turns.{GateCounts};

    ghost Value = { GateCounts };

    ghost view = { λ g. record {
      asked = G.asked g.gate;
      stops = G.stops g.gate;
      calls = G.calls g.gate;
      cuts = G.cuts g.gate;
    } };
}

impl<G: Gate> TurnGate<G> {
    /// This gate, at the beginning of a turn.
    pub fn new(gate: G) -> TurnGate<G>
        ensures { result ≡ record {
          asked = G.asked gate;
          stops = G.stops gate;
          calls = G.calls gate;
          cuts = G.cuts gate;
        } }
    {
        TurnGate { gate, step: 0 }
    }

    /// Begins a turn: the next step is the first.
    pub fn begin_turn(&mut self)
        ensures { self.new ≡ self.old }
    {
        self.step = 0;
    }

    /// Goes on to the next step of the turn; `Cut`, where the gate cuts the worker off before it.
    pub(crate) fn pass_step(&mut self) -> Result<(), Halt>
        requires { HasRoomFor self.old }
        ensures counts { self.new ≡ counts_after self.old result }
        ensures cut { IfErr result (λ halt. halt ≡ Cut) }
    {
        let step = self.step;
        self.step = step.saturating_add(1);
        if self.gate.cut(step) {
            return Err(Halt::Cut);
        }
        Ok(())
    }

    /// The worker's next act.
    pub fn next(&mut self, view: TurnView) -> Act
        requires { HasRoomFor self.old }
        ensures { self.new ≡ record self.old {
          asked = self.old.asked + 1;
          stops = self.old.stops + stops_of result;
          calls = self.old.calls + calls_of result;
        } }
    {
        self.gate.next(view)
    }
}
