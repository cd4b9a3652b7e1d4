//! Where an object may be.
ghost use Rattle.std.specs.Prelude.{◌≡◌, ◌<◌, ◌^◌};
ghost use Rattle.spds_rules.specs.Nodes.{site_of};
ghost use Rattle.spds_rules.specs.Spread.{var_spread};

use link_sites::{Place, Site};
use lists::Key;

/// A variable. The first four are those of a frame; the others stand for what a statement throws, makes or names.
#[derive(Clone, Copy, Debug, PartialEq, Eq, Hash)]
pub enum Var {
    /// A local, by its number among those of the method, from 0.
    Local(u32),
    /// The receiver.
    This,
    /// A parameter, by its number from 0.
    Param(u32),
    /// The exception that the last handler took over.
    Caught,
    /// The exception in flight.
    Thrown,
    /// What the statement makes; of arrays of arrays the outermost one, of level 0.
    Made,
    /// The arrays of an inner level that it makes, by the level, from 1.
    Nested(u8),
    /// The implicit exception of this kind that the statement raises.
    Raised(u8),
    /// A text that the statement hands on, by its number among the texts of the program.
    Text(u32),
    /// A class constant that it hands on, by its number among those.
    Class(u32),
}

/// A variable at a place.
#[derive(Clone, Copy, Debug, PartialEq, Eq, Hash)]
pub struct Node {
    pub place: Place,
    pub var: Var,
}

impl Var {
    // The number by which nodes of the variable are spread.
    fn spread(self) -> u64
        ensures value { result ≡ var_spread self }
        ensures within { result < 2 ^ 38 }
    {
        match self {
            Var::Local(number) => number as u64 * 32,
            Var::This => 1,
            Var::Param(number) => number as u64 * 32 + 2,
            Var::Caught => 3,
            Var::Thrown => 4,
            Var::Made => 5,
            Var::Nested(level) => level as u64 * 32 + 6,
            Var::Raised(kind) => kind as u64 * 32 + 7,
            Var::Text(number) => number as u64 * 32 + 8,
            Var::Class(number) => number as u64 * 32 + 9,
        }
    }
}

impl Key for Node {
    ghost use Rattle.spds_rules.specs.Spread.{node_spread};
    ghost use Rattle.std.proofs.Common.{◌≡◌, rules, true};
    ghost use Rattle.std.proofs.lemmas.Bool.{and_parts};
    ghost use Rattle.link_sites.specs.contracts.place.PlacePartialEq.TheImpl as place;
    ghost use Rattle.spds_rules.specs.contracts.node.VarPartialEq.TheImpl as var;

    ghost spread = { node_spread };

    fn spread(self) -> u64 {
        let raised = if self.place.raised { 16 } else { 0 };
        self.place.method as u64 * 1_048_576
            + self.place.index as u64 * 4096
            + self.var.spread()
            + raised
    }

    ghost same = { λ x y h.
        let parts = and_parts (place.eq-value.it x.place y.place) (var.eq-value.it x.var y.var) h in
        let first : place.eq-value.it x.place y.place ≡ true = parts.0 in
        let second : var.eq-value.it x.var y.var ≡ true = parts.1 in
        let there : x.place ≡ y.place = Prim.search (rules, first) in
        let same : x.var ≡ y.var = Prim.search (rules, second) in
        λ j. record { place = there j; var = same j } };
}

/// The site of the object that comes to be at the node: that of what its statement makes, raises or hands on as a constant. Other variables have
/// none. Takes no memory.
pub fn site_of(node: Node) -> Option<Site>
    ensures { result ≡ site_of node }
{
    match node.var {
        Var::Made => Some(Site::New(node.place)),
        Var::Nested(level) => Some(Site::Nested(node.place, level)),
        Var::Raised(kind) => Some(Site::Raised(node.place, kind)),
        Var::Text(number) => Some(Site::Text(number)),
        Var::Class(number) => Some(Site::Class(number)),
        _ => None,
    }
}
