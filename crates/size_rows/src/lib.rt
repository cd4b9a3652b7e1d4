//! Large inputs through the top call: that ample memory suffices for them, which no contract says. Each test makes its program, and the reply is found by hand.
#![tactic(auto)]

#[cfg(test)]
mod answers;
#[cfg(test)]
mod certificates;
#[cfg(test)]
mod commands;
#[cfg(test)]
mod limits;
#[cfg(test)]
mod queries;
#[cfg(test)]
mod runs;
#[cfg(test)]
mod shapes;
