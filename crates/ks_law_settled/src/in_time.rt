//! Records within grace are never late. Laws alone: each public function has an empty body, and its contract is the law.
ghost use Rattle.ks_law_settled.specs.InTime.{TimesAreOfItems, NothingIsLate};

/// In every state of every uncrashed run of every well-formed topology: the greatest time that a windowed count has seen in a task is
/// at most the greatest time of all its grouped items; and where the job's records are within grace (each window of each grouped item
/// is open at that greatest time), nothing was late.
pub fn records_in_time_are_never_late()
    ensures times { TimesAreOfItems }
    ensures late { NothingIsLate }
{}
