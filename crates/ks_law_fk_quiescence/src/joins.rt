ghost use Rattle.ks_law_fk_quiescence.specs.AtRest.{HashesRest, JoinsRest};

/// Joins on a foreign key once nothing waits, where no two rows of a left key collide: each subscription store has exactly the
/// present rows' hashes with the partitions that they name, and the join's table is the query's where its inputs are, in every uncrashed run of every well-formed
/// topology.
pub fn joins_rest()
    ensures hashes { HashesRest }
    ensures tables { JoinsRest }
{}
