//! The least number in a range of places.
ghost use Rattle.std.specs.Prelude.{◌≡◌, IfOk, length};
ghost use Rattle.object_ranges.specs.Marks.{IsLeastOf, StandsIn, earlier};

use std::alloc::{AllocError, Global};
use std::marker::Model;

/// Numbers at some of the places of a list, from 0. The least in a range of places is told in time with the logarithm of their number. Contracts see
/// the list.
#[derive(Drop)]
pub struct Minima {
    count: usize,
    // A binary tree over the places: below the node i stand the nodes 2 i and 2 i + 1, and the places begin at the node `count`.
    nodes: Vec<Option<u32>>,
}

impl Model for Minima {
    ghost use Rattle.std.specs.Prelude.{List, Option, ℕ, drop};
    ghost use Rattle.object_ranges.specs.Minima.{IsHeap};

    ghost Value = { List (Option ℕ) };

    ghost view = { λ m. drop m.count m.nodes.items };

    ghost invariant = { λ m. IsHeap m.count m.nodes.items };
}

// The lesser of two numbers, of which there may be one or none.
pub(crate) fn earlier(one: Option<u32>, other: Option<u32>) -> Option<u32>
    ensures { result ≡ earlier one other }
{
    match (one, other) {
        (Some(a), Some(b)) => Some(a.min(b)),
        (Some(a), None) => Some(a),
        (None, b) => b,
    }
}

impl Minima {
    /// The minima of these numbers.
    pub fn new(alloc: Global, numbers: &[Option<u32>]) -> Result<Self, AllocError>
        ensures { IfOk result (λ minima. minima ≡ numbers.now) }
    {
        let count = numbers.len();
        let mut nodes = vec![in alloc; None; count]?;
        nodes.extend_from_slice(numbers)?;
        let mut at = count;
        while at > 1 {
            at -= 1;
            nodes[at] = earlier(nodes[at + at], nodes[at + at + 1]);
        }
        Ok(Minima { count, nodes })
    }

    /// How many places there are.
    pub fn len(&self) -> usize
        ensures { result ≡ length self.now }
    {
        self.count
    }

    /// The least of the numbers at the places from `from` up to `to`, without `to`.
    pub fn least(&self, from: usize, to: usize) -> Option<u32>
        ensures { IsLeastOf (StandsIn self.now from to) result }
    {
        let mut low = self.count + from.min(self.count);
        let mut high = self.count + to.min(self.count);
        let mut least = None;
        while low < high {
            // What is between the first and the last node, without one of them where it has no brother there, stands below the nodes between their halves.
            least = earlier(least, earlier(self.nodes[low], self.nodes[high - 1]));
            low = (low + 1) / 2;
            high /= 2;
        }
        least
    }
}
