//! The default methods that classes reach, by their places: for a key they are worked out once for all classes of a tree, as turns between places. For each
//! interface with a default method of the key the places are listed from which it is reached, without those from which another interface with a method of
//! the key is reached that is below it: that one hides the default method. Then all these are gone through in order. Of the interfaces that stand in one run
//! of places below another one only the first is looked at: what the rest of them hide it hides as well. And what interfaces hide that stand side by side is
//! worked out once, for blocks of them. So it takes as much time as there are runs of places from which interfaces with a method of the key are reached, and
//! for each default method those that blocks hide from it and those where it stays, times two logarithms.
//!
//! It knows nothing of the methods that classes have themselves or from their parents, which come before default methods, nor of the classes that may have
//! objects. To begin with: `turns`, what is told and how the places are gone through; then `stays`, from where default methods are reached, `hiding`, from
//! where they are hidden, with `hops` and `blocks`, how interfaces side by side are gone through, and `furthest`, what is kept at a place. `selections` selects
//! methods by such turns, which it has for the keys that it is given beforehand.
#![tactic(auto)]

mod blocks;
mod furthest;
mod hiding;
mod holders;
mod hops;
mod selections;
mod stays;
mod stretches;
mod turns;

pub use selections::Selections;
pub use turns::{DefaultTurn, default_turns, defaults_at};
