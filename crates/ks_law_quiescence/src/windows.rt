ghost use Rattle.ks_law_quiescence.specs.Windows.{LateIsAll, PairsAreFew, WindowsAreAtMost, WindowsAreWhole, WindowsRest};

/// Windowed counts, in every state of every uncrashed run of every well-formed topology: of each window, what is stored, the pairs
/// of the repartition records that wait and the late pairs are together the pairs of the items that were passed on.
pub fn windows_are_whole()
    ensures { WindowsAreWhole }
{}

/// Once nothing waits, and where nothing was late, each windowed count is the query's over all its tasks, in every uncrashed run of
/// every well-formed topology.
pub fn windows_rest()
    ensures { WindowsRest }
{}

/// Once nothing waits, the query's count of each window exceeds the stored one by the window's late pairs, and so is no less, in
/// every uncrashed run of every well-formed topology.
pub fn windows_are_at_most_the_query()
    ensures { WindowsAreAtMost }
{}

/// Once nothing waits, the late pairs of all windows, over all windowed counts, are together the late count of the run.
pub fn late_pairs_are_the_late_count()
    ensures { LateIsAll }
{}

/// A window has no more pairs than the run has steps: an item has each of its windows once.
pub fn window_pairs_are_few()
    ensures { PairsAreFew }
{}
