//! Certificates as texts and over whole programs: what is read of each text, and what a replay says of each certificate, was found by hand from the
//! table of certificates.
#![tactic(auto)]

pub mod graph;
#[cfg(test)]
mod programs;
#[cfg(test)]
mod replays;
#[cfg(test)]
mod texts;
#[cfg(test)]
mod ways;
#[cfg(test)]
mod works;
