ghost use Rattle.ks_law_quiescence.specs.Streams.{StreamGroupsAreWhole};

/// Counts and sums of streams, in every state of every uncrashed run of every well-formed topology: the stored aggregate of a group
/// and the repartition records of it that wait are together the aggregate of the items that were passed on.
pub fn stream_groups_are_whole()
    ensures { StreamGroupsAreWhole }
{}
