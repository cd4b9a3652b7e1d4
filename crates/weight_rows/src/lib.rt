//! Tests of saturation and of what stands around it: domains of weights, tables, and cells of rules. They stand by themselves, so that no library is
//! proved again for them.
#![tactic(auto)]

#[cfg(test)]
mod cells;
#[cfg(test)]
mod domains;
#[cfg(test)]
mod marks;
#[cfg(test)]
mod saturation;
#[cfg(test)]
mod tables;
#[cfg(test)]
mod worked;
