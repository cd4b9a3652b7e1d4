//! Lines of a certificate, gone through one by one: what the rules of the two systems give over them is put behind them, until nothing is left.
#![tactic(auto)]

mod adding;
mod along;
mod held;
mod pairs;
mod popping;
mod putting;
mod roads;
mod starts;
mod wants;
mod work;

pub use adding::{add, number_of};
pub use roads::{Roads, View};
pub use starts::start_all;
pub use wants::{Ahead, Wants};
pub use work::{Work, nothing, work_off};
