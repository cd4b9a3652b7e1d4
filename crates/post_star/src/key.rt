//! What rules and base steps are looked for by.
ghost use Rattle.std.specs.Prelude.{◌≡◌};

/// What rules and base steps are looked for by: a node, a mark, or a node or a base with a mark.
#[derive(Clone, Copy, Debug, PartialEq, Eq, Hash)]
pub enum Key {
    Node(u32),
    Mark(u32),
    Marked { node: u32, mark: u32 },
}

impl lists::Key for Key {
    ghost use Rattle.std.proofs.Common.{rules};
    ghost use Rattle.post_star.specs.Spreads.{key_spread};

    ghost spread = { key_spread };

    fn spread(self) -> u64 {
        match self {
            Key::Node(node) => node as u64,
            Key::Mark(mark) => mark as u64,
            Key::Marked { node, mark } => node as u64 * 4_294_967_296 + mark as u64,
        }
    }

    ghost same = { Prim.search rules };
}
