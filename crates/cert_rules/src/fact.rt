//! What lines of a certificate give.
use super::line::Side;
use link_sites::{Place, Site};
use spds_rules::{Node, StoreAt};

/// The words under which an object is at a node: their first letter and the node at which it was pushed. What stands below the letter, links tell.
#[derive(Clone, Copy, Debug, PartialEq, Eq, Hash)]
pub enum Entry {
    /// Of fields the empty word; of calls each call string of the method.
    Base,
    Field { node: Node, field: u32 },
    Call { node: Node, call: Place },
}

#[derive(Clone, Copy, Debug, PartialEq, Eq, Hash)]
pub enum Fact {
    /// In the system of fields: an object of the site is reached from the node by the words of the entry. In that of calls: it may be there under them.
    At {
        side: Side,
        site: Site,
        entry: Entry,
        node: Node,
    },
    /// Below the first letter of the one entry stand the words of the other.
    Link {
        side: Side,
        site: Site,
        entry: Entry,
        below: Entry,
    },
    /// An object of the one site may be at the one node, and one of the other site at the other, under one call string.
    Shared {
        object: Site,
        arg: Node,
        base: Site,
        at: Node,
    },
    /// An object of the one site may be stored into one of the other.
    Met {
        object: Site,
        base: Site,
        store: StoreAt,
    },
}
