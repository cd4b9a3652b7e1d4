//! A system of rules and starts that grows.
ghost use Rattle.std.specs.Prelude.{◌≡◌, ◌<◌, ◌^◌, length, slice_get, IsTrue};
ghost use Rattle.lists.specs.Lists.{Has};
ghost use Rattle.track_tables.specs.Making.{IsDue, IsPast};

use super::returns::Return;
use lists::Numbered;
use post_star::Work;
use weight_laws::Rel;

/// Which edges back from calls are due.
#[derive(Clone, Copy)]
pub enum Due {
    /// Each of them.
    Each,
    /// Those over marks that are open.
    Open,
    /// Those from the first nodes that were reached, so many of them.
    Past(usize),
}

/// A system that grows, the nodes that it reaches, those at which it begins and those that its rules lead to, and the marks that may be on top there.
#[derive(Drop)]
pub struct Growth {
    pub work: Work<Rel>,
    pub reached: Numbered<u32>,
    /// Those of the words with which objects begin, and those that pushes put on.
    pub marks: Numbered<u32>,
}

impl Growth {
    /// The node that was reached as the one with the number, from 0.
    pub fn reached_at(&self, number: usize) -> Option<u32>
        ensures value { result ≡ slice_get self.now.reached.keys number }
        ensures few { length self.now.reached.keys < 2 ^ 63 }
    {
        self.reached.keys().get(number).copied()
    }

    /// The mark that was opened as the one with the number, from 0.
    pub fn mark_at(&self, number: usize) -> Option<u32>
        ensures value { result ≡ slice_get self.now.marks.keys number }
        ensures few { length self.now.marks.keys < 2 ^ 63 }
    {
        self.marks.keys().get(number).copied()
    }

    /// Whether the node is one of the first that were reached, so many of them.
    pub fn is_past(&self, at: usize, node: u32) -> bool
        ensures { IsPast self.now.reached.keys at node → IsTrue result }
    {
        match self.reached.find(node) {
            Some(number) => (number as usize) < at,
            None => false,
        }
    }

    /// Whether the mark is open.
    pub fn is_open(&self, mark: u32) -> bool
        ensures { Has self.now.marks.keys mark → IsTrue result }
    {
        self.marks.find(mark).is_some()
    }

    /// Whether the edge back from a call is due.
    pub fn has_due(&self, due: Due, back: Return) -> bool
        ensures { IsDue self.now due back → IsTrue result }
    {
        match due {
            Due::Each => true,
            Due::Open => self.is_open(back.mark),
            Due::Past(at) => self.is_past(at, back.edge.from),
        }
    }
}
