//! Nodes, edges, sites and calls from short texts, so that rows of tests are lines of a text. The prover takes a text at once, but goes over each row of
//! an array. Nodes and calls are spelled as certificates spell them.
use link_sites::{Place, Site};
use spds_rules::{Edge, EdgeKind, Node, Var};

// A place: the method and the index of the statement with a dot between them, and `!` behind where an exception is in flight.
fn place(text: &str) -> Option<Place> {
    let (method, index) = text.split_once('.')?;
    let (index, raised) = match index.strip_suffix('!') {
        Some(index) => (index, true),
        None => (index, false),
    };
    Some(Place {
        method: method.parse::<u32>().ok()?,
        index: index.parse::<u32>().ok()?,
        raised,
    })
}

// A variable with a number.
fn numbered(letter: &str, digits: &str) -> Option<Var> {
    match letter {
        "l" => Some(Var::Local(digits.parse::<u32>().ok()?)),
        "p" => Some(Var::Param(digits.parse::<u32>().ok()?)),
        "n" => Some(Var::Nested(digits.parse::<u8>().ok()?)),
        "r" => Some(Var::Raised(digits.parse::<u8>().ok()?)),
        "t" => Some(Var::Text(digits.parse::<u32>().ok()?)),
        "k" => Some(Var::Class(digits.parse::<u32>().ok()?)),
        _ => None,
    }
}

fn var(text: &str) -> Option<Var> {
    match text {
        "this" => Some(Var::This),
        "caught" => Some(Var::Caught),
        "thrown" => Some(Var::Thrown),
        "new" => Some(Var::Made),
        _ => {
            let (letter, digits) = text.split_at_checked(1)?;
            numbered(letter, digits)
        }
    }
}

/// The node that a text spells, as `1.4.l2` or `0.2!.thrown`: its place and its variable.
pub fn node(text: &str) -> Option<Node> {
    let (at, of) = text.rsplit_once('.')?;
    Some(Node {
        place: place(at)?,
        var: var(of)?,
    })
}

/// The call that a text spells, as `2.4`.
pub fn call(text: &str) -> Option<Place> {
    place(text)
}

/// The site that a text spells: that of a statement as the node that its objects start at, as `2.0.new`, `0.4.n1` and `0.3.r2`; that of a constant by its
/// number, as `t0` and `k0`.
pub fn site(text: &str) -> Option<Site> {
    match node(text) {
        Some(start) => site_at(start),
        None => constant(text),
    }
}

fn site_at(start: Node) -> Option<Site> {
    match start.var {
        Var::Made => Some(Site::New(start.place)),
        Var::Nested(level) => Some(Site::Nested(start.place, level)),
        Var::Raised(kind) => Some(Site::Raised(start.place, kind)),
        _ => None,
    }
}

fn constant(text: &str) -> Option<Site> {
    match var(text)? {
        Var::Text(number) => Some(Site::Text(number)),
        Var::Class(number) => Some(Site::Class(number)),
        _ => None,
    }
}

/// The edge into a node that a text spells: `flow 0.1.l0`, `load 3 0.1.l0` of a field, `call 0.1.l0`, `return 2.2 0.1.l0` from a call, or `jump 0.1.l0`.
pub fn edge(text: &str, to: Node) -> Option<Edge> {
    let (kind, from) = text.rsplit_once(' ')?;
    let from = node(from)?;
    Some(Edge {
        from,
        to,
        kind: edge_kind(kind, from)?,
    })
}

fn edge_kind(text: &str, from: Node) -> Option<EdgeKind> {
    match text {
        "flow" => Some(EdgeKind::Flow),
        "call" => Some(EdgeKind::Call(from.place)),
        "jump" => Some(EdgeKind::Jump),
        _ => numbered_kind(text),
    }
}

fn numbered_kind(text: &str) -> Option<EdgeKind> {
    match text.split_once(' ')? {
        ("load", field) => Some(EdgeKind::Load(field.parse::<u32>().ok()?)),
        ("return", at) => Some(EdgeKind::Return(call(at)?)),
        _ => None,
    }
}

/// Whether a list of nodes has exactly these, with a blank between two, in any order; `-` for none. Both have each once.
pub fn are_nodes(nodes: &[Node], text: &str) -> bool {
    if text == "-" {
        return nodes.is_empty();
    }
    let mut count: usize = 0;
    for part in text.split(' ') {
        match node(part) {
            Some(node) if nodes.contains(&node) => count = count.saturating_add(1),
            _ => return false,
        }
    }
    count == nodes.len()
}

/// Whether a list of edges has exactly these into the node, with a comma and a blank between two, in any order; `-` for none. Both have each once.
pub fn are_edges(edges: &[Edge], to: Node, text: &str) -> bool {
    if text == "-" {
        return edges.is_empty();
    }
    let mut count: usize = 0;
    for part in text.split(", ") {
        match edge(part, to) {
            Some(edge) if edges.contains(&edge) => count = count.saturating_add(1),
            _ => return false,
        }
    }
    count == edges.len()
}

/// Whether a list of sites is exactly these, with a blank between two, in this order; `-` for none.
pub fn are_sites(sites: &[Site], text: &str) -> bool {
    if text == "-" {
        return sites.is_empty();
    }
    let mut count: usize = 0;
    for part in text.split(' ') {
        match site(part) {
            Some(site) if sites.get(count) == Some(&site) => count = count.saturating_add(1),
            _ => return false,
        }
    }
    count == sites.len()
}

/// Whether a call string is the one with these calls, the innermost first, with a comma between two; `-` for the empty one.
pub fn is_string(string: &[Place], text: &str) -> bool {
    if text == "-" {
        return string.is_empty();
    }
    let mut count: usize = 0;
    for part in text.split(',') {
        match call(part) {
            Some(call) if string.get(count) == Some(&call) => count = count.saturating_add(1),
            _ => return false,
        }
    }
    count == string.len()
}
