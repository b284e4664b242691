ghost use Rattle.ks_law_quiescence.specs.Groups.{DeltasAreRows, EachBeginning, GroupsAreTaken};

/// Counts and sums of tables, in every state of every uncrashed run of every well-formed topology: the deltas of a sender stand for
/// the rows that it has, each beginning of them for some rows, and the stored group is the sum of what was taken of all senders.
pub fn table_groups_are_sums()
    ensures senders { DeltasAreRows }
    ensures beginnings { EachBeginning }
    ensures stored { GroupsAreTaken }
{}
