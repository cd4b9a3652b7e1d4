//! The laws.
ghost use Rattle.run_covers.specs.Covers.{LinksAreCovered};
ghost use Rattle.run_covers.specs.Found.{LinksHaveAllFound};

/// In each run of the linked program of an input and a prelude, each call enters one of its targets, where both are as they are read and the prelude
/// declares the nine classes.
pub fn links_are_covered()
    ensures { LinksAreCovered }
{}

/// In the same runs, where a call looks its method up, the method that is found is linked: it has a number and statements. The look-up begins at the
/// class that the call names in static and special mode, and else at the class of an object, which is below that one. So a run doesn't end at a call
/// because linking left a method out, and no more than look-up need be believed to know which calls aren't well typed.
pub fn resolved_methods_are_linked()
    ensures { LinksHaveAllFound }
{}
