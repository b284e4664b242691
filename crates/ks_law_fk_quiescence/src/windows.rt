ghost use Rattle.ks_law_fk_quiescence.specs.Windows.{WindowsCountLess};

/// Once nothing waits, after fewer than 2^48 steps, each window's stored count with its late pairs is the query's, in whole numbers;
/// so it is at most the query's. In every uncrashed run of every well-formed topology.
pub fn window_counts_rest()
    ensures { WindowsCountLess }
{}
