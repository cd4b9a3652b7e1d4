//! Words that are nodes and places.
ghost use Rattle.std.specs.Prelude.{◌≡◌, ◌↔◌, ℕ, Bool, Some};
ghost use Rattle.link_sites.specs.declared.place.Place.{Place as AnyPlace};
ghost use Rattle.spds_rules.specs.declared.node.Node.{Node as AnyNode};
ghost use Rattle.spds_rules.specs.declared.node.Var.{Var as AnyVar};
ghost use Rattle.cert_rules.specs.Spelled.{var_text};
ghost use Rattle.cert_text.specs.Words.{IsNamed, IsNumbered, SpellsCall, SpellsIndex, SpellsNode, SpellsVar};

use super::cuts::cut;
use super::numbers::number;
use link_sites::Place;
use spds_rules::{Node, Var};

// The variable without a number that a word is.
fn named(word: &[u8]) -> Option<Var>
    ensures { (v : AnyVar) → (result ≡ Some v) ↔ (IsNamed v × (word.now ≡ var_text v)) }
{
    match word {
        b"this" => Some(Var::This),
        b"caught" => Some(Var::Caught),
        b"thrown" => Some(Var::Thrown),
        b"new" => Some(Var::Made),
        _ => None,
    }
}

// The variable of a letter and a number. Levels and kinds are below 256.
fn numbered(letter: u8, number: u32) -> Option<Var>
    ensures { (v : AnyVar) → (result ≡ Some v) ↔ IsNumbered letter number v }
{
    match letter {
        b'l' => Some(Var::Local(number)),
        b'p' => Some(Var::Param(number)),
        b'n' if number < 256 => Some(Var::Nested(number as u8)),
        b'r' if number < 256 => Some(Var::Raised(number as u8)),
        b't' => Some(Var::Text(number)),
        b'k' => Some(Var::Class(number)),
        _ => None,
    }
}

/// The variable that a word spells.
pub(crate) fn var(word: &[u8]) -> Option<Var>
    ensures { (v : AnyVar) → (result ≡ Some v) ↔ SpellsVar word.now v }
{
    if let Some(var) = named(word) {
        return Some(var);
    }
    let (letter, digits) = word.split_first()?;
    let number = number(digits)?;
    numbered(*letter, number)
}

// The index that a word spells, and whether the mark of an exception in flight stands behind it.
fn index(word: &[u8]) -> Option<(u32, bool)>
    ensures { (i : ℕ) (raised : Bool) → (result ≡ Some (i, raised)) ↔ SpellsIndex word.now i raised }
{
    let Some((digits, rest)) = cut(word, b'!') else {
        return Some((number(word)?, false));
    };
    if rest.is_empty() {
        Some((number(digits)?, true))
    } else {
        None
    }
}

/// The node that a word spells.
pub(crate) fn node(word: &[u8]) -> Option<Node>
    ensures { (n : AnyNode) → (result ≡ Some n) ↔ SpellsNode word.now n }
{
    let (method, rest) = cut(word, b'.')?;
    let (index_word, var_word) = cut(rest, b'.')?;
    let method = number(method)?;
    let (index, raised) = index(index_word)?;
    let var = var(var_word)?;
    let place = Place {
        method,
        index,
        raised,
    };
    Some(Node { place, var })
}

/// The call of a call string that a word spells.
pub(crate) fn call(word: &[u8]) -> Option<Place>
    ensures { (place : AnyPlace) → (result ≡ Some place) ↔ SpellsCall word.now place }
{
    let (method, index) = cut(word, b'.')?;
    let method = number(method)?;
    let index = number(index)?;
    Some(Place {
        method,
        index,
        raised: false,
    })
}
