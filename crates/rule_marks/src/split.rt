ghost use Rattle.rule_marks.specs.SplitLaws.{AnyDerivationsAreSplit, AnyValuesAreSplit, BasesAreLedStill, BasesAreSplit, CodesTellWords, DerivationsAreSplit, ValuesAreSplit, WordsAreCoded};
ghost use Rattle.rule_marks.specs.Making.{ListsGivePlaces};

use weight_laws::Weight;

/// A node of the system has a word with the same weights as the coded word in the system with split marks, which has coded words alone there. A coded word
/// tells its word.
pub fn derivations_are_split<W: Weight>()
    ensures word { DerivationsAreSplit W.domain }
    ensures any { AnyDerivationsAreSplit W.domain }
    ensures coded_alone { WordsAreCoded W.domain }
    ensures one_word { CodesTellWords }
{}

/// The value of a node and a word is that of the coded word in the system with split marks.
pub fn values_are_split<W: Weight>()
    ensures word { ValuesAreSplit W.domain }
    ensures any { AnyValuesAreSplit W.domain }
{}

/// A base leads to the last one by a word exactly where it leads there by the coded word over split steps, and by no others. Where named bases lead to the
/// last one, they do so still.
pub fn bases_are_split<W: Weight>()
    ensures words { BasesAreSplit W.domain }
    ensures led { BasesAreLedStill W.domain }
{}

/// Where rules, starts and steps name nodes and bases of the lists alone, these have places in the split system.
pub fn lists_give_places<W: Weight>()
    ensures { ListsGivePlaces W.domain }
{}
