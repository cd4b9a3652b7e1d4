//! What the reader gives is what linking asks for: a law over definitions alone, that joins the reader's crates with those of linking.
#![tactic(auto)]

mod laws;

pub use laws::{derived_programs_are_read, spelled_programs_are_read};

#[cfg(test)]
mod tests;
