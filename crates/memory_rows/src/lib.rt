//! Calls that want memory, made once more where there was none: what they leave is as it was, and going on gives what it gives where memory is ample.
//! `tests/allocations.sh` refuses each allocation of these tests in turn.
#![tactic(auto)]

#[cfg(test)]
mod machines;
#[cfg(test)]
mod names;
#[cfg(test)]
mod tables;
