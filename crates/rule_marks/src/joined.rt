ghost use Rattle.rule_marks.specs.JoinedLaws.{AnyDerivationsAreJoined, AnyValuesAreJoined, DerivationsAreJoined, JoiningNodesHaveAll, ValuesAreJoined};

use weight_laws::Weight;

/// A node and a word have the same derivations over joining nodes as without these.
pub fn derivations_are_joined<W: Weight>()
    ensures word { DerivationsAreJoined W.domain }
    ensures any { AnyDerivationsAreJoined W.domain }
{}

/// A joining node has the derivations of the nodes from which flows lead there.
pub fn joining_nodes_have_all<W: Weight>()
    ensures { JoiningNodesHaveAll W.domain }
{}

/// The value of a node is the same over joining nodes as without these.
pub fn values_are_joined<W: Weight>()
    ensures word { ValuesAreJoined W.domain }
    ensures any { AnyValuesAreJoined W.domain }
{}
