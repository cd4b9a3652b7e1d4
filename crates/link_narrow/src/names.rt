//! What is kept, to be looked up.
ghost use Rattle.std.specs.Prelude.{◌≡◌, ◌↔◌, IfOk, IsTrue};
ghost use Rattle.link_narrow.specs.Names.{AreSpots, spot_of};
ghost use Rattle.narrow_rules.specs.Narrowed.{IsKept, StaysIn};

use jim_ast::Mode;
use lists::{Key, Numbered};
use narrow_rules::Kept;
use std::alloc::{AllocError, Global};
use std::marker::Model;

/// A target of the call at an index of a method.
#[derive(Clone, Copy, Debug, PartialEq, Eq)]
pub struct Spot {
    pub method: u32,
    pub index: u32,
    pub target: u32,
}

impl Key for Spot {
    ghost use Rattle.std.proofs.Common.{rules};
    ghost use Rattle.link_narrow.specs.Names.{spot_spread};

    ghost spread = { spot_spread };

    fn spread(self) -> u64 {
        self.method as u64 * 1_048_576 + self.index as u64 * 1024 + self.target as u64
    }

    ghost same = { Prim.search rules };
}

/// The targets that are named, each to be found by one look-up.
#[derive(Drop)]
pub struct Named<'a> {
    kept: &'a [Kept],
    spots: Numbered<Spot>,
}

impl<'a> Model for Named<'a> {
    ghost use Rattle.std.specs.Prelude.{List};
    ghost use Rattle.narrow_rules.specs.declared.kept.Kept.{Kept as AKept};

    ghost Value = { List AKept };

    ghost use Rattle.link_narrow.specs.Names.{AreSpots};

    ghost view = { λ n. n.kept.now };

    ghost invariant = { λ n. AreSpots n.kept.now n.spots.keys };
}

fn spot_of(kept: Kept) -> Spot
    ensures { result ≡ spot_of kept }
{
    Spot {
        method: kept.place.method,
        index: kept.place.index,
        target: kept.target,
    }
}

// Each spot that is named, once.
fn spots_of(alloc: Global, kept: &[Kept]) -> Result<Numbered<Spot>, AllocError>
    ensures { IfOk result (λ spots. AreSpots kept.now spots.keys) }
{
    let mut spots = Numbered::new(alloc);
    for one in kept {
        spots.add(spot_of(*one))?;
    }
    Ok(spots)
}

impl<'a> Named<'a> {
    /// What is named.
    pub fn of(alloc: Global, kept: &'a [Kept]) -> Result<Self, AllocError>
        ensures { IfOk result (λ named. named ≡ kept.now) }
    {
        let spots = spots_of(alloc, kept)?;
        Ok(Named { kept, spots })
    }

    /// Whether a target of a call of this mode stays. Takes no memory.
    pub fn stays(&self, mode: Mode, spot: Spot) -> bool
        ensures { IsTrue result ↔ StaysIn mode (IsKept self.now spot.method spot.index spot.target) }
    {
        match mode {
            Mode::Static | Mode::Special => true,
            Mode::Virtual | Mode::Interface => self.spots.find(spot).is_some(),
        }
    }
}
