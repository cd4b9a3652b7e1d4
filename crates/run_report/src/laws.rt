//! What holds of the runs that digits name.
ghost use Rattle.run_report.specs.Laws.{NamedRunIsARun, NamedRunIsOne, RunsAreNamed};

/// Digits name one run of a linked program, so that a reply about it has one meaning: one number of steps and one last state. It is one of the
/// program's runs. Each run of the program is named by its choices, as a list of numbers; decimal digits name those whose choices are below ten.
pub fn named_runs_are_one()
    ensures one { NamedRunIsOne }
    ensures run { NamedRunIsARun }
    ensures named { RunsAreNamed }
{}
