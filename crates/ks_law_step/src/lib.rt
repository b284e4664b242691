//! One whole step of a task over the bytes of its stores, as code makes it. Laws alone: each public function has an empty body, and
//! its contract is the law.
#![tactic(auto)]

ghost use Rattle.ks_law_step.specs.Whole.{StepsAreMade};

/// Of every well-formed topology: a task's whole step over bytes makes what is made by lists that grow node by node and by stores that
/// are looked up at one key, or under one front.
pub fn steps_are_made()
    ensures { StepsAreMade }
{}
