ghost use Rattle.spds_laws.specs.Strings.{EachMethodHasAString, StringsAreOfMethods};
ghost use Rattle.spds_laws.specs.Found.{ClosedHoldsTheMeets, FoundAreMeets};
ghost use Rattle.spds_laws.specs.Laws.{MeetsAreClosed, MeetsCompose, StringsAreIncluded, WordsCompose};
ghost use Rattle.spds_laws.specs.Starts.{CallsAreFromStarts};

/// An object of one site may be stored into one of a second; where one of the second may be stored into one of a third, so may one of the first,
/// by the same store.
pub fn meets_compose()
    ensures { MeetsCompose }
{}

/// Where an object of one site may be stored into one of another, it may be wherever, and under each call string under which, that may be.
pub fn strings_included()
    ensures { StringsAreIncluded }
{}

/// Where a word leads from a node to an object of a second site, and one of a first may be stored into that, the word, the field of the store and a
/// word that leads from what is stored to the first lead from the node to the first.
pub fn words_compose()
    ensures { WordsCompose }
{}

/// What may be stored over the meets is one of them: no further round adds any.
pub fn meets_are_closed()
    ensures { MeetsAreClosed }
{}

/// Whatever the order in which triples are found, each over those before it: what is found is met, and where nothing is left to find all is found.
pub fn any_order_finds_the_meets()
    ensures found { FoundAreMeets }
    ensures all { ClosedHoldsTheMeets }
{}

/// What comes through static fields and stores makes further start nodes: from these, edges that match calls give the whole call system.
pub fn calls_are_from_starts()
    ensures { CallsAreFromStarts }
{}

/// Each call string of a node is one of its method, and in a well linked program each method with statements has one.
pub fn strings_are_of_methods()
    ensures strings { StringsAreOfMethods }
    ensures some { EachMethodHasAString }
{}
