//! What a settled run prints with its journal has no fault that an audit tells. A law alone: the public function has an empty body, and
//! its contract is the law.
#![tactic(auto)]

ghost use Rattle.ks_law_accepted.specs.Accepted.{NothingIsRefused, TheAnswerIsYes};

/// No line of what a settled run prints with its journal is refused, and its whole shows no fault; where no length is passed.
pub fn nothing_is_refused()
    ensures { NothingIsRefused }
{}

/// To an input that is a topology's line and what a settled run of it prints with its journal, where no length is passed, the one answer
/// of an audit is yes, if no fault rises in the source: neither its topology nor what stands behind it is refused.
pub fn the_answer_is_yes()
    ensures { TheAnswerIsYes }
{}
