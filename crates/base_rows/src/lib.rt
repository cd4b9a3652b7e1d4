//! Tests of what knows no programs: keys by number, sets of numbers, streams, the words of commands, the demo's text, and pieces and batches side by
//! side. They stand by themselves, so that no library is proved again for them.
#![tactic(auto)]

#[cfg(test)]
mod batches;
#[cfg(test)]
mod demos;
#[cfg(test)]
mod keys;
#[cfg(test)]
mod pieces;
#[cfg(test)]
mod sets;
#[cfg(test)]
mod streams;
#[cfg(test)]
mod words;
