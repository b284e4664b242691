ghost use Rattle.ks_law_fk_quiescence.specs.AtRest.{TablesRest};

/// Once nothing waits, after fewer than 2^48 steps, and where no two rows of a left key collide, each table that isn't a windowed
/// count is the query's over all its tasks, in every uncrashed run of every well-formed topology.
pub fn tables_rest()
    ensures { TablesRest }
{}
