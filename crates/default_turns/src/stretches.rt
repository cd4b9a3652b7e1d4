//! Holders that stand side by side in the order of their places.
ghost use Rattle.std.specs.Prelude.{◌+◌};
ghost use Rattle.std.specs.List.Sorted.{IsNonDecreasingBy};
ghost use Rattle.default_turns.specs.Stretches.{IsFirstFrom};

use super::holders::Holder;

/// The holders at the indexes from `from` up to `to`, without `to`.
#[derive(Clone, Copy)]
pub(crate) struct Stretch {
    pub from: usize,
    pub to: usize,
}

/// The index of the first holder at the place or behind it. It takes the logarithm of how many holders there are.
pub(crate) fn first_from(holders: &[Holder], place: u32) -> usize
    requires { IsNonDecreasingBy (λ h. h.place) holders.now }
    ensures { IsFirstFrom holders.now place result }
{
    holders.partition_point(|holder| holder.place < place)
}

/// The index of the first holder behind the place. It takes the logarithm of how many holders there are.
pub(crate) fn first_behind(holders: &[Holder], place: u32) -> usize
    requires { IsNonDecreasingBy (λ h. h.place) holders.now }
    ensures { IsFirstFrom holders.now (place + 1) result }
{
    holders.partition_point(|holder| holder.place <= place)
}
