//! What holds of all classes, and of the names of any text.
ghost use Rattle.jim_signs.specs.Names.{NamesAreFirsts};
ghost use Rattle.jim_signs.specs.Pieces.{HasTokens};

/// A law: each class but `Other` is the class of some token.
pub fn has_tokens()
    ensures { HasTokens }
{}

/// A law: the names of a text are what its tokens say, each text once, in the order in which it is said first.
pub fn names_are_firsts()
    ensures { NamesAreFirsts }
{}
