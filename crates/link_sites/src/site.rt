//! Where objects come from.
use super::place::Place;

/// An allocation site: the objects of one kind that one statement makes, or one constant. The places are unraised.
#[derive(Clone, Copy, Debug, PartialEq, Eq, Hash)]
pub enum Site {
    /// The objects, or the arrays, that a statement makes; of arrays of arrays those of the outermost level, 0.
    New(Place),
    /// The arrays of an inner level of the arrays of arrays that a statement makes, by the level, from 1.
    Nested(Place, u8),
    /// The implicit exceptions of one kind that a statement raises: 0 `NullPointerException`, 1 `ArrayIndexOutOfBoundsException`,
    /// 2 `ArrayStoreException`, 3 `NegativeArraySizeException`, 4 `ClassCastException`, 5 `ArithmeticException`.
    Raised(Place, u8),
    /// A text, by its number among the texts of the program.
    Text(u32),
    /// A class constant, by its number among those.
    Class(u32),
}
