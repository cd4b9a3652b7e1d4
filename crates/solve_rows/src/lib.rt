//! Meets and answers of whole programs, and how much their tables hold, read from their texts. What each has of them was found by hand from the definitions.
#![tactic(auto)]

#[cfg(test)]
mod pieces;
#[cfg(test)]
mod programs;
#[cfg(test)]
mod queries;
#[cfg(test)]
mod refining;
