//! Tests of typestate over linked programs: of protocols. They stand by themselves, so that no library is proved again for them.
#![tactic(auto)]

#[cfg(test)]
mod protocols;
