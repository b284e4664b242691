//! Which nodes are in one subtopology, and the numbers of topics. Laws alone: each public function has an empty body, and its contract is the law.
ghost use Rattle.ks_law_restated.specs.Connected.{WellFormedInputsComeFirst, SameSubtopologyIsConnected, ConnectedIsSameSubtopology};
ghost use Rattle.ks_law_restated.specs.Connected.{LabelsAreFirstNodes, SubtopologiesAreNumberedByFirstNodes, SubtopologiesAreCounted};
ghost use Rattle.ks_law_restated.specs.Connected.{NodesLieInSubtopologies, SubtopologiesHaveNodes};
ghost use Rattle.ks_law_restated.specs.Topics.{NumbersArePlaces, TopicsStandAtTheirNumbers, TopicsHaveTheirOwnNumbers};

/// The plan of every draft without a fault is such as the laws below ask: its edges lead to nodes that are numbered before.
pub fn inputs_come_first()
    ensures { WellFormedInputsComeFirst }
{}

/// In every such plan two nodes are in one subtopology exactly when they are connected by edges with no internal topic between.
pub fn a_subtopology_is_what_is_connected()
    ensures connected { SameSubtopologyIsConnected }
    ensures same { ConnectedIsSameSubtopology }
{}

/// In every such plan: a node's label is the first node that it is connected with; the number of its subtopology is how many
/// subtopologies begin before its own; and there are as many subtopologies as nodes that begin one, each with a node in it.
pub fn subtopologies_are_numbered_by_first_nodes()
    ensures label { LabelsAreFirstNodes }
    ensures number { SubtopologiesAreNumberedByFirstNodes }
    ensures count { SubtopologiesAreCounted }
    ensures within { NodesLieInSubtopologies }
    ensures inhabited { SubtopologiesHaveNodes }
{}

/// In every plan: a topic's number is its place in the list of topics, at its number stands that topic, and no two have one number.
pub fn topics_have_their_own_numbers()
    ensures place { NumbersArePlaces }
    ensures topic { TopicsStandAtTheirNumbers }
    ensures own { TopicsHaveTheirOwnNumbers }
{}
