//! That threads may share what a topology is made of, as facts: that of a type with boxes in it is put together from those of what it
//! holds.
ghost use Rattle.std.specs.Thread.{IsSync};
ghost use Rattle.ks_plan.specs.contracts.draft.Draft as draft;
ghost use Rattle.ks_plan.specs.contracts.node.Node as node;

/// Threads may share a draft, as a fact for the calls that follow; does nothing.
pub fn share_draft()
    ensures { IsSync draft.the_row }
{}

/// Threads may share a node, as a fact for the calls that follow; does nothing.
pub fn share_node()
    ensures { IsSync node.the_row }
{}
