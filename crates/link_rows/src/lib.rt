//! Tests of the linker: bodies by name, code in final numbers, the indexes of linked code, and what is linked of whole programs. They stand by themselves,
//! so that no library is proved again for them.
#![tactic(auto)]

#[cfg(test)]
mod bodies;
#[cfg(test)]
mod codes;
#[cfg(test)]
mod indexes;
#[cfg(test)]
mod linking;
#[cfg(test)]
mod narrowing;
