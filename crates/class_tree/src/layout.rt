use super::paths::Paths;
use class_order::{Groups, Span};

/// The places of the classes, and what they tell. A class and those from which parents lead to it
/// have places that follow each other.
#[derive(Clone, Copy)]
pub struct Layout<'a> {
    /// For each class its place.
    pub places: &'a [u32],
    /// For each class the places of those from which it is reached, itself included.
    pub reach: &'a Groups<Span>,
    /// Look-ups of methods along the parents, by places.
    pub methods: &'a Paths,
}
