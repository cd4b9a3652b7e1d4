//! The lines of a certificate.
use jim_ast::List;
use link_sites::Place;
use spds_rules::Node;

/// The pushdown system that a line speaks of.
#[derive(Clone, Copy, Debug, PartialEq, Eq, Hash)]
pub enum Side {
    Field,
    Call,
}

/// A line. It gives one fact, but for a claim. `node` is where the fact puts an object. The numbers are those of earlier lines, from 1; `from` is the
/// line whose fact it goes on from, `meet` one that gave that the object is stored, `link` one that gave what stands below a letter.
#[derive(Drop)]
pub enum Line {
    /// An object is at a start node of its site.
    Start {
        side: Side,
        node: Node,
    },
    /// Through a static field it may be there under each call string.
    Jump {
        from: u32,
        node: Node,
    },
    /// Through the field of an object that starts there it may be there under each call string.
    Put {
        from: u32,
        meet: u32,
        node: Node,
    },
    /// It goes along an edge that keeps the words of the side.
    Flow {
        side: Side,
        from: u32,
        node: Node,
    },
    /// The field of a store is pushed where the object that it is stored into starts.
    PushField {
        from: u32,
        meet: u32,
        node: Node,
    },
    /// A call is pushed, by which it is passed.
    PushCall {
        from: u32,
        node: Node,
    },
    /// What stands below the field that `PushField` with these numbers pushes.
    LinkField {
        from: u32,
        meet: u32,
        node: Node,
    },
    /// What stands below the call that `PushCall` with these numbers pushes.
    LinkCall {
        from: u32,
        node: Node,
    },
    /// The first letter is taken off: a field that is loaded, or a call that is returned from.
    Pop {
        side: Side,
        from: u32,
        link: u32,
        node: Node,
    },
    /// A call is returned from by an object that may be in the method under each call string.
    BasePop {
        from: u32,
        node: Node,
    },
    /// Two objects may be at two nodes under one call string. Each list tells how it is read for one of them: the line that gave where the object is, and
    /// then those that gave links, one for each call that was pushed.
    Shared {
        first: List<u32>,
        second: List<u32>,
        string: List<Place>,
    },
    /// One object may be stored into the other: `shared` gave the call string, `base` that the other is what the store stores into.
    Meet {
        shared: u32,
        base: u32,
    },
    /// An object is at the target, as a line of each system gave.
    Claim {
        field: u32,
        call: u32,
    },
}
