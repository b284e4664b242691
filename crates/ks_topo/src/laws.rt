//! Laws of drafts and plans: each is what an empty function ensures.
ghost use Rattle.std.specs.Prelude.{◌≡◌, None};
ghost use Rattle.ks_plan.specs.Drafts.{DraftView};
ghost use Rattle.ks_plan.specs.Faults.{fault_of};
ghost use Rattle.ks_topo.specs.WellFormed.{IsWellFormed};

/// A draft has no first fault exactly where no line of the table of faults fits it.
#[tactic(auto, using(crate::proofs::Lines::no_line, crate::proofs::Lines::no_fault))]
pub fn well_formed_drafts()
    ensures no_line { (d : DraftView) → fault_of d ≡ None → IsWellFormed d }
    ensures no_fault { (d : DraftView) → IsWellFormed d → fault_of d ≡ None }
{}
