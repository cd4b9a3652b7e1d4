//! What is kept at a place: which stays reach furthest.
ghost use Rattle.std.specs.Prelude.{◌∷◌, ◌++◌, [], List};
ghost use Rattle.class_tree.specs.Defaults.{AreDefaults};
ghost use Rattle.default_turns.specs.declared.stays.Stay.{Stay as AStay};
ghost use Rattle.default_turns.specs.Furthest.{AreFurthest, StaysPast};

use super::stays::Stay;
use class_tree::Defaults;

/// Of the stays that have begun, up to where the default method stays that does so furthest, and up to where any other one does. That tells at each later
/// place whether none stays, one alone, or more.
#[derive(Clone, Copy)]
pub(crate) struct Furthest {
    row: u32,
    end: u32,
    others_end: u32,
}

impl Furthest {
    /// No stay has begun.
    pub(crate) fn none() -> Self
        ensures { AreFurthest [] result }
    {
        Furthest {
            row: 0,
            end: 0,
            others_end: 0,
        }
    }

    /// One more has begun.
    pub(crate) fn with(self, stay: Stay) -> Self
        ensures { (stays : List AStay) → AreFurthest stays self → AreFurthest (stays ++ stay ∷ []) result }
    {
        if stay.row == self.row {
            Furthest {
                end: self.end.max(stay.end),
                ..self
            }
        } else if self.end < stay.end {
            Furthest {
                row: stay.row,
                end: stay.end,
                others_end: self.end,
            }
        } else {
            Furthest {
                others_end: self.others_end.max(stay.end),
                ..self
            }
        }
    }

    /// The default methods that stay past the place.
    pub(crate) fn defaults(self, place: u32) -> Defaults
        ensures { (stays : List AStay) → AreFurthest stays self → AreDefaults (StaysPast stays place) result }
    {
        if place < self.others_end {
            Defaults::Several
        } else if place < self.end {
            Defaults::One(self.row)
        } else {
            Defaults::Nothing
        }
    }
}
