//! Certificates that `explain` prints about the worked programs: each of them is replayed.
#![tactic(auto)]

#[cfg(test)]
mod explained;
