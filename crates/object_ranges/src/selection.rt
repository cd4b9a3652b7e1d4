//! The method that the objects of a class run.
ghost use Rattle.std.specs.Prelude.{◌≡◌};
ghost use Rattle.object_ranges.specs.Selections.{selection_of};

use class_tree::Defaults;

/// What selection from a class gives.
#[derive(Clone, Copy, Debug, PartialEq, Eq)]
pub enum Selection {
    /// No method, or no class to select one.
    Nothing,
    /// The method with this row.
    Method(u32),
    /// Several default methods, of which none is the most specific.
    Several,
}

/// What is selected from a class from which the look-up along the parents gives this row and these default methods are reached: the row, or else the one
/// default method.
pub fn selection_of(row: Option<u32>, defaults: Defaults) -> Selection
    ensures { result ≡ selection_of row defaults }
{
    match (row, defaults) {
        (Some(row), _) | (None, Defaults::One(row)) => Selection::Method(row),
        (None, Defaults::Nothing) => Selection::Nothing,
        (None, Defaults::Several) => Selection::Several,
    }
}
