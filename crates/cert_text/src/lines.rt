//! Lines of a certificate, read word by word.
ghost use Rattle.std.specs.Prelude.{◌≡◌, ◌↔◌, [], ◌∷◌, Some, IfOk, codes};
ghost use Rattle.cert_rules.specs.declared.line.Line.{Line as AnyLine};
ghost use Rattle.cert_rules.specs.Spelled.{SpellsLine};
ghost use Rattle.cert_text.specs.Heads.{line_of_four, line_of_five};
ghost use Rattle.cert_text.specs.Words.{AreWordsOf, texts};

use super::commas::{numbers, string};
use super::cuts::parts;
use super::heads::{Head, head_of, side_of};
use super::nodes::node;
use super::numbers::number;
use cert_rules::{Line, Side};
use lists::NoMemory;
use spds_rules::Node;
use std::alloc::Global;

// The line of a head and two words.
fn of_three(head: &[u8], first: &[u8], second: &[u8]) -> Option<Line>
    ensures { (l : AnyLine) → (result ≡ Some l) ↔ AreWordsOf (head.now ∷ first.now ∷ second.now ∷ []) l }
{
    match head {
        b"start" => {
            let side = side_of(first)?;
            let node = node(second)?;
            Some(Line::Start { side, node })
        }
        b"meet" => {
            let shared = number(first)?;
            let base = number(second)?;
            Some(Line::Meet { shared, base })
        }
        b"claim" => {
            let field = number(first)?;
            let call = number(second)?;
            Some(Line::Claim { field, call })
        }
        _ => None,
    }
}

// The line that goes on from one other.
fn line_of_four(head: Head, side: Side, from: u32, node: Node) -> Option<Line>
    ensures { result ≡ line_of_four head side from node }
{
    match (head, side) {
        (Head::Start, Side::Call) => Some(Line::Jump { from, node }),
        (Head::Flow, _) => Some(Line::Flow { side, from, node }),
        (Head::Push, Side::Call) => Some(Line::PushCall { from, node }),
        (Head::Link, Side::Call) => Some(Line::LinkCall { from, node }),
        (Head::Base, Side::Call) => Some(Line::BasePop { from, node }),
        _ => None,
    }
}

// The line that goes on from one other, and cites a second.
fn line_of_five(head: Head, side: Side, from: u32, second: u32, node: Node) -> Option<Line>
    ensures { result ≡ line_of_five head side from second node }
{
    match (head, side) {
        (Head::Start, Side::Call) => Some(Line::Put {
            from,
            meet: second,
            node,
        }),
        (Head::Push, Side::Field) => Some(Line::PushField {
            from,
            meet: second,
            node,
        }),
        (Head::Link, Side::Field) => Some(Line::LinkField {
            from,
            meet: second,
            node,
        }),
        (Head::Pop, _) => Some(Line::Pop {
            side,
            from,
            link: second,
            node,
        }),
        _ => None,
    }
}

// The line of a head, a side, a number and a node.
fn of_step(head_word: &[u8], side_word: &[u8], from: &[u8], node_word: &[u8]) -> Option<Line>
    requires { head_word.now ≡ codes "shared" → ⊥ }
    ensures { (l : AnyLine) → (result ≡ Some l) ↔ AreWordsOf (head_word.now ∷ side_word.now ∷ from.now ∷ node_word.now ∷ []) l }
{
    let head = head_of(head_word)?;
    let side = side_of(side_word)?;
    let from = number(from)?;
    let node = node(node_word)?;
    line_of_four(head, side, from, node)
}

// The line of a head, a side, two numbers and a node.
fn of_five(
    head_word: &[u8],
    side_word: &[u8],
    from: &[u8],
    second: &[u8],
    node_word: &[u8],
) -> Option<Line>
    ensures { (l : AnyLine) → (result ≡ Some l)
        ↔ AreWordsOf (head_word.now ∷ side_word.now ∷ from.now ∷ second.now ∷ node_word.now ∷ []) l }
{
    let head = head_of(head_word)?;
    let side = side_of(side_word)?;
    let from = number(from)?;
    let second = number(second)?;
    let node = node(node_word)?;
    line_of_five(head, side, from, second, node)
}

// The line `shared` with these words behind its head.
fn shared(
    alloc: Global,
    first: &[u8],
    second: &[u8],
    string_word: &[u8],
) -> Result<Option<Line>, NoMemory>
    ensures { IfOk result (λ found. (l : AnyLine) → (found ≡ Some l)
        ↔ AreWordsOf (codes "shared" ∷ first.now ∷ second.now ∷ string_word.now ∷ []) l) }
{
    let Some(first) = numbers(alloc, first)? else {
        return Ok(None);
    };
    let Some(second) = numbers(alloc, second)? else {
        return Ok(None);
    };
    let Some(string) = string(alloc, string_word)? else {
        return Ok(None);
    };
    Ok(Some(Line::Shared {
        first,
        second,
        string,
    }))
}

// The line of a head and three words.
fn of_four(
    alloc: Global,
    head: &[u8],
    first: &[u8],
    second: &[u8],
    third: &[u8],
) -> Result<Option<Line>, NoMemory>
    ensures { IfOk result (λ found. (l : AnyLine) → (found ≡ Some l) ↔ AreWordsOf (head.now ∷ first.now ∷ second.now ∷ third.now ∷ []) l) }
{
    if head == b"shared".as_slice() {
        shared(alloc, first, second, third)
    } else {
        Ok(of_step(head, first, second, third))
    }
}

// The line that has these words.
fn of_words(alloc: Global, words: &[&[u8]]) -> Result<Option<Line>, NoMemory>
    ensures { IfOk result (λ found. (l : AnyLine) → (found ≡ Some l) ↔ AreWordsOf (texts words.now) l) }
{
    match words {
        [head, first, second] => Ok(of_three(head, first, second)),
        [head, first, second, third] => of_four(alloc, head, first, second, third),
        [head, side, from, second, node] => Ok(of_five(head, side, from, second, node)),
        _ => Ok(None),
    }
}

/// The line that a text spells.
pub(crate) fn line(alloc: Global, text: &[u8]) -> Result<Option<Line>, NoMemory>
    ensures { IfOk result (λ found. (l : AnyLine) → (found ≡ Some l) ↔ SpellsLine text.now l) }
{
    let words = parts(alloc, text, b' ')?;
    of_words(alloc, words.as_slice())
}
