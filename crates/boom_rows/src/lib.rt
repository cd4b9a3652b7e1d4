//! Commands over whole programs through the top call, with the replies found by hand.
#![tactic(auto)]

#[cfg(test)]
mod batches;
#[cfg(test)]
mod commands;
#[cfg(test)]
mod events;
#[cfg(test)]
mod explains;
#[cfg(test)]
mod gates;
#[cfg(test)]
mod paths;
#[cfg(test)]
mod refined;
#[cfg(test)]
mod refusals;
#[cfg(test)]
mod replays;
#[cfg(test)]
mod rows;
#[cfg(test)]
mod typestates;
