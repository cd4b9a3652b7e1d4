//! The laws.
ghost use Rattle.narrow_rules.specs.Laws.{HasOneNarrowed, NarrowedIsWell, NarrowedKeepsForm};

/// What is left of a well-linked program is well linked, whatever is kept, and what is left of any other has the form that each linked program has.
pub fn narrowed_is_well_linked()
    ensures well { NarrowedIsWell }
    ensures form { NarrowedKeepsForm }
{}

/// What is left is determined by the program and by what is kept.
pub fn narrowed_is_determined()
    ensures { HasOneNarrowed }
{}
