//! One whole step of a task over the bytes of its stores, as code does it. Laws alone: each public function has an empty body, and its
//! contract is the law.
#![tactic(auto)]

ghost use Rattle.ks_def_lookups.specs.KeptDecoded.{KeptIsDecoded};
ghost use Rattle.ks_def_lookups.specs.Lists.{NodesActAsLists};
ghost use Rattle.ks_def_lookups.specs.Stores.{StoresAreLookedUp};
ghost use Rattle.ks_def_lookups.specs.WindowsDecoded.{CountsAgree};

/// Items and values of a step's nodes are those of lists that grow node by node, whatever the plan.
pub fn nodes_act_as_lists()
    ensures { NodesActAsLists }
{}

/// A table's value at a key, the subscriber at a foreign key and a left key, and all those at a foreign key are found in the bytes of a task's
/// stores at one key, or under one front.
pub fn stores_are_looked_up()
    ensures { StoresAreLookedUp }
{}

/// What a subscription store keeps under a foreign key, where its keys are bytes, is what the task machine's subscription store, read
/// from the same bytes, has at that key, in order.
pub fn kept_is_decoded()
    ensures { KeptIsDecoded }
{}

/// Over a store whose keys are bytes, what an item with a key makes of a windowed count's bytes is what the task machine's windowed
/// count makes of the counts and the greatest timestamp that the store has: as many late pairs, the same changelog records, the same
/// counts after; and the store is what these records leave in it.
pub fn windows_are_decoded()
    ensures { CountsAgree }
{}
