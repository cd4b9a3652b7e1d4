ghost use Rattle.std.specs.Prelude.{◌≡◌, ◌↔◌, ◌≤◌, ◌^◌, IsTrue, true};
ghost use Rattle.weight_laws.specs.Law.{Domain, IsLawful};

/// A domain of weights: an idempotent semiring whose order has a height.
///
/// `combine` joins two ways that lead to one end, and `extend` joins one way and the next. No call takes memory.
/// Each implementation proves the laws over its meant values.
pub trait Weight: Copy + Eq {
    // The values that are meant, and the operations as functions.
    ghost domain: { Domain Self };

    /// No way at all: the unit of `combine`.
    fn zero() -> Self
        ensures { result ≡ domain.zero };

    /// The way of no step: the unit of `extend`.
    fn one() -> Self
        ensures { result ≡ domain.one };

    /// Either way: the least upper bound of both.
    fn combine(self, other: Self) -> Self
        ensures { result ≡ domain.combine self other };

    /// The one way, and then the other.
    fn extend(self, other: Self) -> Self
        ensures { result ≡ domain.extend self other };

    /// Whether `other` lies above: to combine both gives `other`.
    fn leq(self, other: Self) -> bool
        ensures { IsTrue result ↔ (domain.combine self other ≡ other) };

    /// How often a weight can still rise, at most: it falls with each rise.
    fn height(self) -> u64
        ensures { result ≡ domain.height self };

    /// Changes nothing, and tells a proof that the value in hand is meant.
    fn told(self)
        ensures { domain.IsMeant self };

    ghost laws: { IsLawful Self domain };

    // Meant values that are equal by `==` are one.
    ghost same: { (x y : Self) → domain.IsMeant x → domain.IsMeant y → Self.eq x y ≡ true → x ≡ y };
}

/// A domain whose heights are at most 2^62, so that two of them can be added.
pub trait Small: Weight {
    ghost small: { (x : Self) → Self.domain.IsMeant x → Self.domain.height x ≤ 2 ^ 62 };
}
