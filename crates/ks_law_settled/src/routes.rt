//! Where the records of a topology's tasks go. Each law is the contract of a function that does nothing.
ghost use Rattle.ks_law_settled.specs.Routes.{InputsAreOnce, PartitionsAreRead, TopologiesSendInside};

/// No subtopology has an input twice.
pub fn inputs_once()
    ensures { InputsAreOnce }
{}

/// All that a task of a well-formed topology makes of a record of its inputs goes to partitions of the cluster, whatever its
/// stores hold: what would go elsewhere is held back.
pub fn topologies_send_inside()
    ensures { TopologiesSendInside }
{}

/// Each partition of each topic of a well-formed topology's drain order is an input of one of its tasks.
pub fn partitions_are_read()
    ensures { PartitionsAreRead }
{}
