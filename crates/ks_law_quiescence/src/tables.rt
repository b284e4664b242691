ghost use Rattle.ks_law_quiescence.specs.Tables.{SourcesAreLatest, FiltersFollow, MapsFollow, JoinsFollow};

/// A source table's store is the latest of what its task took, in every state of every uncrashed run of every well-formed topology.
pub fn source_tables_are_latest()
    ensures { SourcesAreLatest }
{}

/// The stores of filters, maps and joins on keys follow the present stores of their inputs, in every such state.
pub fn derived_tables_follow()
    ensures filters { FiltersFollow }
    ensures maps { MapsFollow }
    ensures joins { JoinsFollow }
{}
