//! Tests of the reader: names, tokens, signs, the grammar, statements and programs. They stand by themselves, so that no library is proved again for them.
#![tactic(auto)]

#[cfg(test)]
mod grammar;
#[cfg(test)]
mod names;
#[cfg(test)]
mod places;
#[cfg(test)]
mod programs;
#[cfg(test)]
mod signs;
#[cfg(test)]
mod statements;
#[cfg(test)]
mod tokens;
