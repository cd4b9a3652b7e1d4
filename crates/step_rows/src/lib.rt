//! Tests of the machine and of texts over linked programs: heaps, runs, and replies about runs and about locals. They stand by themselves, so that no
//! library is proved again for them.
#![tactic(auto)]

#[cfg(test)]
mod heaps;
#[cfg(test)]
mod replies;
#[cfg(test)]
mod run_replies;
#[cfg(test)]
mod runs;
