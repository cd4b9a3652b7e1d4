//! Call strings, over the calls of a program read from its text, and over tables that were filled by hand: what each has of them was found by hand from the
//! definitions.
#![tactic(auto)]

#[cfg(test)]
mod calls;
#[cfg(test)]
mod strings;
