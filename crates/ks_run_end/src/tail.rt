//! What stands behind the tables of a run.
ghost use Rattle.std.specs.Prelude.{◌≡◌};
ghost use Rattle.ks_run_end.specs.Tails.{refusal_in};

use ks_iq::{Answer, Ask, IqFault};

/// What is wanted of a run beside its tables.
#[derive(Drop)]
pub enum Tail {
    Nothing,
    /// The lines of its journal.
    Lines,
    /// A question's answers, of which these were given beside the workers.
    Answers { ask: Ask, answers: Vec<Answer> },
    /// A question that can't be asked.
    Refusal(IqFault),
}

/// What the topology has against the question. Takes no memory.
pub fn refusal_in(wanted: &Tail) -> Option<IqFault>
    ensures { result ≡ refusal_in wanted.now }
{
    match wanted {
        Tail::Refusal(fault) => Some(*fault),
        Tail::Nothing | Tail::Lines | Tail::Answers { .. } => None,
    }
}
