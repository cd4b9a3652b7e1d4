//! How an object goes from one node to another.
use super::node::Node;
use link_sites::Place;

/// What an edge does to the fields and to the calls that a word of a node tells.
#[derive(Clone, Copy, Debug, PartialEq, Eq, Hash)]
pub enum EdgeKind {
    /// The object stays in its frame.
    Flow,
    /// It is read from the instance field with this number; 0 stands for the elements of arrays.
    Load(u32),
    /// It is passed into a call at this place.
    Call(Place),
    /// It comes back from a call at this place.
    Return(Place),
    /// It goes through a static field.
    Jump,
}

#[derive(Clone, Copy, Debug, PartialEq, Eq, Hash)]
pub struct Edge {
    pub from: Node,
    pub to: Node,
    pub kind: EdgeKind,
}
