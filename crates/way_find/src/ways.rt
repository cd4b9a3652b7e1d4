//! Graphs that are asked for the steps from where a search is.
ghost use Rattle.std.specs.Prelude.{◌↔◌, ℕ, IfOk, IsTrue};
ghost use Rattle.lists.specs.Lists.{Has};

use lists::Key;
use std::alloc::{AllocError, Global};

/// A step, by its label, and where it leads.
#[derive(Clone, Copy, Debug, PartialEq, Eq)]
pub struct Step<V> {
    pub label: u32,
    pub to: V,
}

/// Steps with labels, and goals.
pub trait Ways<V: Key> {
    /// The steps.
    ghost goes: { Self → V → ℕ → V → Type 0 };

    /// The goals.
    ghost is_goal: { Self → V → Type 0 };

    /// What the steps ask for.
    ghost is_ready: { Self → Type 0 };

    /// The steps from here.
    fn steps(&self, alloc: Global, from: V) -> Result<Vec<Step<V>>, AllocError>
        requires { is_ready self.now }
        ensures { IfOk result (λ steps. (label : ℕ) (to : V) → Has steps.items (record { label = label; to = to }) ↔ goes self.now from label to) };

    /// Whether this is a goal.
    fn is_goal(&self, at: V) -> bool
        ensures { IsTrue result ↔ is_goal self.now at };
}
