use super::weight::{Small, Weight};

/// Whether there is a way: `combine` is "or", `extend` is "and".
#[derive(Clone, Copy, Debug, PartialEq, Eq)]
pub struct Reach(pub bool);

impl Weight for Reach {
    ghost use Rattle.weight_laws.specs.Reach.{reach_domain};
    ghost use Rattle.weight_laws.specs.ReachLaws.{reach_lawful, reach_same};

    ghost domain = { reach_domain };

    fn zero() -> Self {
        Reach(false)
    }

    fn one() -> Self {
        Reach(true)
    }

    fn combine(self, other: Self) -> Self {
        Reach(self.0 || other.0)
    }

    fn extend(self, other: Self) -> Self {
        Reach(self.0 && other.0)
    }

    fn leq(self, other: Self) -> bool {
        !self.0 || other.0
    }

    fn height(self) -> u64 {
        if self.0 { 0 } else { 1 }
    }

    fn told(self) {}

    ghost laws = { reach_lawful };

    ghost same = { reach_same };
}

impl Small for Reach {
    ghost use Rattle.weight_laws.specs.ReachLaws.{reach_small};

    ghost small = { reach_small };
}
