//! The law.
ghost use Rattle.narrow_covers.specs.SameRuns.{NarrowedHasSameRuns};

/// Where in each run a call that enters a method keeps that one among its targets, the program that is left has the same runs, state by state, and each
/// call in them enters one of its targets.
pub fn narrowed_has_same_runs()
    ensures { NarrowedHasSameRuns }
{}
