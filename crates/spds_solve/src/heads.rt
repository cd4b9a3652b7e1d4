//! What the call strings at a node may begin with: two that begin with different marks aren't one.
ghost use Rattle.std.specs.Prelude.{◌≡◌};
ghost use Rattle.spds_solve.specs.Heads.{head_of as head_by};

/// What call strings begin with.
#[derive(Clone, Copy, Debug, PartialEq, Eq)]
pub enum Head {
    /// Any call, or none.
    Any,
    /// The call with the mark.
    Mark(u32),
}

/// What call strings begin with of which this is the first mark, where it is told.
pub fn head_of(first: Option<u32>) -> Head
    ensures { result ≡ head_by first }
{
    match first {
        Some(mark) => Head::Mark(mark),
        None => Head::Any,
    }
}
