//! Streams that fail, and inputs that somebody cut or made to do harm, through the top call, with the replies found by hand.
#![tactic(auto)]

#[cfg(test)]
mod cuts;
#[cfg(test)]
mod faults;
#[cfg(test)]
mod shapes;
#[cfg(test)]
mod texts;
