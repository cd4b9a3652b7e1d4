//! How an object gets into another.
use super::node::Node;
use link_sites::Place;

/// A store into an instance field, or, where `field` is 0, into an element of an array: the node of what is stored, and that of what it is stored
/// into.
#[derive(Clone, Copy, Debug, PartialEq, Eq, Hash)]
pub struct StoreAt {
    pub place: Place,
    pub field: u32,
    pub base: Node,
    pub arg: Node,
}
