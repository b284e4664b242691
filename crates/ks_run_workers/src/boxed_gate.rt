//! A gate in a box as a gate.
ghost use Rattle.std.specs.Prelude.{◌≡◌, ◌+◌, length, IfOk};
ghost use Rattle.ks_edge.specs.Counts.{stops_of, calls_of, one_if, HasRoom};

use ks_edge::{Act, Gate, TurnView};
use std::alloc::{AllocError, Global};

/// A gate that is known only as a gate, so that whatever takes a gate of a type of its own can take one
/// that was chosen when the program runs.
#[derive(Drop)]
pub struct BoxedGate {
    gate: Box<dyn Gate + Send>,
}

impl Gate for BoxedGate {
    ghost asked = { λ g. (Gate-box g.gate).asked g.gate.value };

    ghost stops = { λ g. (Gate-box g.gate).stops g.gate.value };

    ghost calls = { λ g. (Gate-box g.gate).calls g.gate.value };

    ghost cuts = { λ g. (Gate-box g.gate).cuts g.gate.value };

    fn reset(&mut self, worker: u8, seed: Option<u64>, interval: u32) {
        self.gate.reset(worker, seed, interval);
    }

    fn next(&mut self, view: TurnView) -> Act {
        self.gate.next(view)
    }

    fn cut(&mut self, step: u32) -> bool {
        self.gate.cut(step)
    }
}

/// These gates, in their order.
pub fn box_gates(
    alloc: Global,
    gates: Vec<Box<dyn Gate + Send>>,
) -> Result<Vec<BoxedGate>, AllocError>
    ensures { IfOk result (λ v. length v.items ≡ length gates.items) }
{
    let mut boxed = Vec::new(alloc);
    let mut rest = gates.into_iter();
    while let Some(gate) = rest.next() {
        boxed.push(BoxedGate { gate })?;
    }
    Ok(boxed)
}
