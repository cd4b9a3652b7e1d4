//! The laws.
ghost use Rattle.track_runs.specs.Laws.{RunsAreWatched};

/// Each run, of any length, is watched to its end, or it has a step that breaks the protocol: a monitor misses none.
pub fn runs_are_watched()
    ensures { RunsAreWatched }
{}
