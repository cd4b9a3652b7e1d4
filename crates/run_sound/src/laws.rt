//! The laws.
ghost use Rattle.link_rules.specs.WellLinked.{IsWellLinked};
ghost use Rattle.run_covers.specs.Covers.{IsCovered};
ghost use Rattle.run_sound.specs.Agrees.{RunsAgree};
ghost use Rattle.run_sound.specs.Composed.{HasComposedMeets, HasComposedWords, HasIncludedStrings};
ghost use Rattle.run_sound.specs.Links.{LinksAreSound};
ghost use Rattle.run_sound.specs.Simulated.{IsAnswering, IsSharing, IsSimulated, IsSimulatedInConstants, IsSimulatedInStatics};

use link_program::Linked;

/// Each run of the program is simulated by the two pushdown systems, whatever is asked: where a word of fields leads from a slot of a frame, from a
/// static field or from a constant to an object, both systems have the object there. So what a local holds is of a site that the query of its node
/// answers, and what two locals of one frame hold is of a site that both answer under one call string.
///
/// Each state of the run also agrees with the program: its first frame is the root's, each other frame is of a method that the call below it has as a
/// target, the string of each frame is a call string of its method, what is in flight is an object, each object has the class of its site, which is
/// instantiable, and each write is of a field that the site has.
///
/// The program is well linked, and the targets of its calls cover what its runs do, as in each program that linking gives.
pub fn simulated(linked: &Linked)
    requires well { IsWellLinked linked.now }
    requires covered { IsCovered linked.now }
    ensures agrees { RunsAgree linked.now }
    ensures simulated { IsSimulated linked.now }
    ensures statics { IsSimulatedInStatics linked.now }
    ensures constants { IsSimulatedInConstants linked.now }
    ensures answered { IsAnswering linked.now }
    ensures shared { IsSharing linked.now }
{}

/// So it is in the linked program of an input and a prelude, where both are as they are read and the prelude declares the nine classes.
pub fn links_are_simulated()
    ensures { LinksAreSound }
{}

/// An object that may be stored into one of a second site may be stored, by the same store, into whatever one of the second may be stored into.
pub fn meets_compose(linked: &Linked)
    ensures { HasComposedMeets linked.now }
{}

/// An object that may be stored into one of another site may be wherever that may be, under each call string.
pub fn strings_included(linked: &Linked)
    ensures { HasIncludedStrings linked.now }
{}

/// A word of fields to an object of one site goes on over the field of each store into it, to what may be stored there.
pub fn words_compose(linked: &Linked)
    ensures { HasComposedWords linked.now }
{}
