//! What holds of all that is read.
ghost use Rattle.read_laws.specs.Read.{DerivedIsRead, SpelledIsRead};

/// A law: a program that bytes spell is as linking asks. Each name in it is one of its names, a call has a receiver exactly where its mode
/// isn't static, a switch has its default, and no label stands behind the end of its body.
pub fn spelled_programs_are_read()
    ensures { SpelledIsRead }
{}

/// The same law of the programs that tokens derive, as `jim_parse::parse` gives them.
pub fn derived_programs_are_read()
    ensures { DerivedIsRead }
{}
