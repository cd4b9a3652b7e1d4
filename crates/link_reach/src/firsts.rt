//! The first refusal in the methods that were examined.
ghost use Rattle.std.specs.Prelude.{◌≡◌, ◌++◌, ◌∷◌, [], ℕ, List, Option, MatchOption, Some};
ghost use Rattle.lists.specs.Lists.{Has};
ghost use Rattle.link_rules.specs.Classes.{DeclaredMethod};
ghost use Rattle.link_rules.specs.World.{World};
ghost use Rattle.link_faults.specs.Examined.{HasNoFault, IsFirstFault};
ghost use Rattle.link_reach.specs.Firsts.{IsFirstIn, IsRow};

use link_faults::Fault;

/// The first refusal of a method, with the method's row.
#[derive(Clone, Copy, Debug, PartialEq, Eq)]
pub struct FaultIn {
    pub number: u32,
    pub fault: Fault,
}

/// The first refusal, when one more method was examined.
pub fn earlier(first: Option<FaultIn>, row: u32, fault: Option<Fault>) -> Option<FaultIn>
    ensures { (w : World) (rows : List ℕ) (m : DeclaredMethod) → IsRow w row m → MatchOption fault (HasNoFault w m) (IsFirstFault w m)
        → IsFirstIn w rows first → IsFirstIn w (rows ++ row ∷ []) result }
{
    let Some(fault) = fault else {
        return first;
    };
    let new = FaultIn { number: row, fault };
    match first {
        Some(old) if old.number < row => Some(old),
        _ => Some(new),
    }
}
