ghost use Rattle.std.specs.Prelude.{◌≡◌, ℕ, ◌<◌, ◌≤◌, slice_index, drop};
ghost use Rattle.weight_laws.specs.Rel.{reached, words, HasMeaning};

use super::weight::{Small, Weight};

/// A relation on the states 0 to 15: bit `j` of word `i` says that `i` leads to `j`. `combine` is the union, `extend` the
/// composition in order.
#[derive(Clone, Copy, Debug, PartialEq, Eq)]
pub struct Rel(pub [u16; 16]);

/// Where the states of each set of four lead: bit `i` of an index stands for the state `first + i`.
fn unions(relation: &[u16; 16], first: usize) -> [u16; 16]
    requires { first ≤ 12 }
    ensures each { (set : ℕ) → set < 16 → slice_index result set ≡ reached set (drop first relation.now) 4 }
{
    let a = relation[first];
    let b = relation[first + 1];
    let c = relation[first + 2];
    let d = relation[first + 3];
    let ab = a | b;
    let cd = c | d;
    [
        0,
        a,
        b,
        ab,
        c,
        a | c,
        b | c,
        ab | c,
        d,
        a | d,
        b | d,
        ab | d,
        cd,
        a | cd,
        b | cd,
        ab | cd,
    ]
}

/// The first relation, and then the second.
fn composed(first: &[u16; 16], second: &[u16; 16]) -> [u16; 16]
    ensures { result ≡ words (λ i. reached (slice_index first.now i) second.now 16) }
{
    let to_3 = unions(second, 0);
    let to_7 = unions(second, 4);
    let to_11 = unions(second, 8);
    let to_15 = unions(second, 12);
    let mut words = *first;
    for word in words.iter_mut() {
        let states = *word;
        *word = to_3[(states & 15) as usize]
            | to_7[((states >> 4) & 15) as usize]
            | to_11[((states >> 8) & 15) as usize]
            | to_15[(states >> 12) as usize];
    }
    words
}

impl Weight for Rel {
    ghost use Rattle.weight_laws.specs.Rel.{rel_domain};
    ghost use Rattle.weight_laws.specs.RelLaws.{rel_lawful, rel_same};

    ghost domain = { rel_domain };

    fn zero() -> Self {
        Rel([0; 16])
    }

    fn one() -> Self {
        Rel([
            0x1, 0x2, 0x4, 0x8, 0x10, 0x20, 0x40, 0x80, 0x100, 0x200, 0x400, 0x800, 0x1000, 0x2000,
            0x4000, 0x8000,
        ])
    }

    fn combine(self, other: Self) -> Self {
        let mut words = self.0;
        for (i, row) in words.iter_mut().enumerate() {
            *row |= other.0[i];
        }
        Rel(words)
    }

    fn extend(self, other: Self) -> Self {
        Rel(composed(&self.0, &other.0))
    }

    fn leq(self, other: Self) -> bool {
        self.combine(other) == other
    }

    fn height(self) -> u64 {
        let mut room: u64 = 0;
        for word in self.0.iter() {
            room += (u16::MAX - *word) as u64;
        }
        room
    }

    fn told(self) {}

    ghost laws = { rel_lawful };

    ghost same = { rel_same };
}

impl Small for Rel {
    ghost use Rattle.weight_laws.specs.RelLaws.{rel_small};

    ghost small = { rel_small };
}

/// What the operations on relations mean, state by state: composition in order, union, identity, and no pair at all.
pub fn relations_have_meaning()
    ensures { HasMeaning }
{}
