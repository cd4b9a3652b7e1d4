//! What holds of steps and runs.
ghost use Rattle.step_rules.specs.Laws.{ChoicesAreDetermined, RunsBegin, RunsGoOn, RunsKeepShape, StepIsDetermined};

/// A step is determined by the state and the choice, and so is the number of choices; each state of a run stands at statements of the program and
/// holds objects of its heap.
pub fn steps_are_determined()
    ensures step { StepIsDetermined }
    ensures choices { ChoicesAreDetermined }
    ensures shape { RunsKeepShape }
{}

/// Each program that is in form has a run, and each run goes on until it ends by the root's return, by an exception that nothing catches or by a
/// statement that isn't well typed: before that there is a next step, and each of its choices leads to a state. This rules out a row of the machine's
/// table that asks for what no state has: there a run would stop unseen, and what is said of all runs would be said of fewer.
pub fn runs_go_on()
    ensures begin { RunsBegin }
    ensures go_on { RunsGoOn }
{}
