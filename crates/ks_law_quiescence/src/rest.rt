ghost use Rattle.ks_law_quiescence.specs.AtRest.{PlainTablesRest};

/// Once nothing waits, after fewer than 2^48 steps, each table that is made of source tables and of counts and sums of streams, by
/// filters, maps, joins on keys, counts and sums of tables alone is the query's over all its tasks, in every uncrashed run of every
/// well-formed topology.
pub fn plain_tables_rest()
    ensures { PlainTablesRest }
{}
