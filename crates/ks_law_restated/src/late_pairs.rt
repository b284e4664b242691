//! What the late counts of a run count. Laws alone: each public function has an empty body, and its contract is the law.
ghost use Rattle.ks_law_restated.specs.Drops.{LatePairsAreDrops, LateIsAllDrops, LateCountIsAllDrops};

/// In every list of records that tasks take: the late pairs of a window are how often the steps dropped an item from it, since its
/// grace period was over at the greatest time that the windowed count had seen in its task.
pub fn late_pairs_are_drops()
    ensures { LatePairsAreDrops }
{}

/// The late total of every list of records that tasks take, and the late count in every state of every run, is how often the steps
/// dropped an item from a window, over all nodes of the plan.
pub fn the_late_count_is_all_drops()
    ensures total { LateIsAllDrops }
    ensures state { LateCountIsAllDrops }
{}
