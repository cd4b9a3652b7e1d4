ghost use Rattle.rule_cells.specs.Followed.{AnyDerivationsAreKept, DerivationsAreKept};
ghost use Rattle.rule_cells.specs.Laws.{AnyDerivationsAreExtended, AnyValuesAreExtended, DerivationsAreExtended, OnesHaveNoOffset, ValuesAreExtended};
ghost use Rattle.rule_cells.specs.Renamed.{AnyDerivationsAreRenamed, DerivationsAreRenamed};

use weight_laws::Weight;

/// A node and a word have the derivations of the node's head in the contracted system, each extended by the node's offset, and no others.
pub fn derivations_are_extended<W: Weight>()
    ensures word { DerivationsAreExtended W.domain }
    ensures any { AnyDerivationsAreExtended W.domain }
{}

/// The value of a node is that of its head in the contracted system, extended by the node's offset.
pub fn values_are_extended<W: Weight>()
    ensures word { ValuesAreExtended W.domain }
    ensures any { AnyValuesAreExtended W.domain }
{}

/// Where each rule weighs one, so does each offset.
pub fn ones_have_no_offset<W: Weight>()
    ensures { OnesHaveNoOffset W.domain }
{}

/// A node by a new number has the derivations that it has by its old one.
pub fn derivations_are_renamed<W: Weight>()
    ensures word { DerivationsAreRenamed W.domain }
    ensures any { AnyDerivationsAreRenamed W.domain }
{}

/// A flow that weighs one gives nothing where others like it lead from its source to its target: without it each node has the derivations that it has with it.
pub fn derivations_are_kept<W: Weight>()
    ensures word { DerivationsAreKept W.domain }
    ensures any { AnyDerivationsAreKept W.domain }
{}
