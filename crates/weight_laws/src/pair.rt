use super::weight::{Small, Weight};

/// Two weights, part by part. Both are `Small`, so that their heights can be added; a pair is not `Small` itself.
#[derive(Clone, Copy, Debug, PartialEq, Eq)]
pub struct Pair<A, B>(pub A, pub B);

impl<A: Small, B: Small> Weight for Pair<A, B> {
    ghost use Rattle.weight_laws.specs.Pair.{pair_domain};
    ghost use Rattle.weight_laws.specs.PairLaws.{pair_lawful, pair_same};

    ghost domain = { pair_domain A B A.domain B.domain };

    fn zero() -> Self {
        Pair(A::zero(), B::zero())
    }

    fn one() -> Self {
        Pair(A::one(), B::one())
    }

    fn combine(self, other: Self) -> Self {
        Pair(self.0.combine(other.0), self.1.combine(other.1))
    }

    fn extend(self, other: Self) -> Self {
        Pair(self.0.extend(other.0), self.1.extend(other.1))
    }

    fn leq(self, other: Self) -> bool {
        self.0.leq(other.0) && self.1.leq(other.1)
    }

    fn height(self) -> u64 {
        self.0.told();
        self.1.told();
        self.0.height() + self.1.height()
    }

    fn told(self) {
        self.0.told();
        self.1.told();
    }

    ghost laws = { pair_lawful A B A.domain B.domain A.Weight.laws B.Weight.laws };

    ghost same = { pair_same A B A.domain B.domain A.Weight.laws B.Weight.laws A.eq B.eq A.same B.same };
}
