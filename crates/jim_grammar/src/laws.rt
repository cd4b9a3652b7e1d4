//! Laws of the grammar.

ghost use Rattle.jim_grammar.specs.Laws.{TextsHaveKnownClasses, TextsGoByClasses, LeastPlaceIsOne};

/// A text of the grammar has only tokens of known classes, never one of `Lead::Other`, and whether tokens are a text goes by their classes alone.
///
/// So where some text begins with tokens, for each further class any token of that class will do.
pub fn texts_go_by_classes()
    ensures known { TextsHaveKnownClasses }
    ensures classes { TextsGoByClasses }
{}

/// A list of tokens has at most one least place at which it is refused.
pub fn least_place_is_one()
    ensures { LeastPlaceIsOne }
{}
