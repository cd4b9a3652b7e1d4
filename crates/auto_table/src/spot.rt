//! What the cells of a table are found by.
ghost use Rattle.std.specs.Prelude.{◌≡◌, ℕ, ◌+◌, ◌*◌, ◌%◌, ◌^◌};

use super::entry::Entry;
use lists::Key;

/// The number of an entry, and a node.
#[derive(Clone, Copy, Debug, PartialEq, Eq)]
pub struct Spot {
    pub row: u32,
    pub node: u32,
}

impl Key for Spot {
    ghost use Rattle.std.proofs.Common.{rules};
    ghost use Rattle.auto_table.specs.Spreads.{spot_spread};

    ghost spread = { spot_spread };

    fn spread(self) -> u64 {
        self.row as u64 * 4_294_967_296 + self.node as u64
    }

    ghost same = { Prim.search rules };
}

/// The number of a child, and its parent.
#[derive(Clone, Copy, Debug, PartialEq, Eq)]
pub struct Joint {
    pub row: u32,
    pub parent: Entry,
}

impl Key for Joint {
    ghost use Rattle.std.proofs.Common.{rules};
    ghost use Rattle.auto_table.specs.Spreads.{joint_spread};

    ghost spread = { joint_spread };

    fn spread(self) -> u64 {
        // An odd factor, so that children of one parent are spread.
        let child = (self.row as u64).wrapping_mul(14_029_467_366_897_019_727);
        self.parent.spread().wrapping_add(child)
    }

    ghost same = { Prim.search rules };
}
