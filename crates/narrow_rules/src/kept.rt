//! What is kept.
use link_indexes::Place;

/// A target that the call at a place keeps. In static and special mode calls keep all their targets, whatever is named.
#[derive(Clone, Copy, Debug, PartialEq, Eq, Hash)]
pub struct Kept {
    pub place: Place,
    pub target: u32,
}
