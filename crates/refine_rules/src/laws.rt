//! The laws.
ghost use Rattle.refine_rules.specs.Laws.{RefinedIsDetermined, RefinedKeepsRuns};

/// After any number of rounds the program that is left is well linked where the first one is, has the same runs where the targets of the first one's calls
/// cover these, and its own targets cover them too.
pub fn refined_keeps_runs()
    ensures { RefinedKeepsRuns }
{}

/// So many rounds, with the same budget, leave one program.
pub fn refined_is_determined()
    ensures { RefinedIsDetermined }
{}
