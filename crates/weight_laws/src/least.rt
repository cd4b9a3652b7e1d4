use super::weight::{Small, Weight};

/// The least cost of a way: `combine` is the lesser cost, `extend` the sum. `u32::MAX` stands for no way, and for each
/// sum that is larger.
#[derive(Clone, Copy, Debug, PartialEq, Eq)]
pub struct Least(pub u32);

impl Weight for Least {
    ghost use Rattle.weight_laws.specs.Least.{least_domain};
    ghost use Rattle.weight_laws.specs.LeastLaws.{least_lawful, least_same};

    ghost domain = { least_domain };

    fn zero() -> Self {
        Least(u32::MAX)
    }

    fn one() -> Self {
        Least(0)
    }

    fn combine(self, other: Self) -> Self {
        Least(self.0.min(other.0))
    }

    fn extend(self, other: Self) -> Self {
        Least(self.0.saturating_add(other.0))
    }

    fn leq(self, other: Self) -> bool {
        other.0 <= self.0
    }

    fn height(self) -> u64 {
        self.0 as u64
    }

    fn told(self) {}

    ghost laws = { least_lawful };

    ghost same = { least_same };
}

impl Small for Least {
    ghost use Rattle.weight_laws.specs.LeastLaws.{least_small};

    ghost small = { least_small };
}
