//! What stands behind the tables of a run.
ghost use Rattle.std.specs.Prelude.{◌≡◌};
ghost use Rattle.ks_run.specs.Tails.{tail_of};

use ks_iq::IqFault;
use ks_run_end::Tail;
use ks_run_workers::Asked;

/// What a run's settings and its question ask for.
pub fn wanted_by(shown: bool, refusal: Option<IqFault>, asked: Option<Asked>) -> Tail
    ensures { result ≡ tail_of shown refusal asked }
{
    if let Some(fault) = refusal {
        return Tail::Refusal(fault);
    }
    match asked {
        Some(Asked { ask, answers }) => Tail::Answers { ask, answers },
        None if shown => Tail::Lines,
        None => Tail::Nothing,
    }
}
