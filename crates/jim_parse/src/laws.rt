//! What holds of all texts.
ghost use Rattle.jim_parse.specs.Derives.{HasOnePlace, HasOneProgram};

/// A law: a text spells at most one program.
pub fn has_one_program()
    ensures { HasOneProgram }
{}

/// A law: tokens are refused at one place at most.
pub fn has_one_place()
    ensures { HasOnePlace }
{}
