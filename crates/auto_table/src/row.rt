//! What a table lists of an entry.
use super::entry::Entry;

/// A node that an entry has a weight at.
#[derive(Clone, Copy, Debug, PartialEq, Eq)]
pub struct Reached<W> {
    pub node: u32,
    pub weight: W,
}

/// An entry that another one has a link to, with the weight of the link.
#[derive(Clone, Copy, Debug, PartialEq, Eq)]
pub struct Linked<W> {
    pub parent: Entry,
    pub weight: W,
}
