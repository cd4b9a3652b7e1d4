//! Nodes, edges and demands of whole programs, read from their texts: what each program has of them was found by hand from the definitions.
#![tactic(auto)]

#[cfg(test)]
mod asking;
#[cfg(test)]
mod backs;
#[cfg(test)]
mod demands;
#[cfg(test)]
mod edges;
#[cfg(test)]
mod nodes;
#[cfg(test)]
mod programs;
#[cfg(test)]
mod rows;
#[cfg(test)]
mod walks;
