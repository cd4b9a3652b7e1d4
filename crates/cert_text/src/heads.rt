//! The words with which lines begin.
ghost use Rattle.std.specs.Prelude.{◌≡◌, ◌↔◌, Some};
ghost use Rattle.cert_rules.specs.declared.line.Side.{Side as AnySide};
ghost use Rattle.cert_rules.specs.Spelled.{side_text};
ghost use Rattle.cert_text.specs.Heads.{AnyHead, head_text};

use cert_rules::Side;

/// The first word of a line that has a side, and then the numbers of lines and a node.
#[derive(Clone, Copy)]
pub(crate) enum Head {
    Start,
    Flow,
    Push,
    Link,
    Pop,
    Base,
}

/// The head that a word is.
pub(crate) fn head_of(word: &[u8]) -> Option<Head>
    ensures { (h : AnyHead) → (result ≡ Some h) ↔ (word.now ≡ head_text h) }
{
    match word {
        b"start" => Some(Head::Start),
        b"flow" => Some(Head::Flow),
        b"push" => Some(Head::Push),
        b"link" => Some(Head::Link),
        b"pop" => Some(Head::Pop),
        b"base" => Some(Head::Base),
        _ => None,
    }
}

/// The side that a word is.
pub(crate) fn side_of(word: &[u8]) -> Option<Side>
    ensures { (s : AnySide) → (result ≡ Some s) ↔ (word.now ≡ side_text s) }
{
    match word {
        b"F" => Some(Side::Field),
        b"C" => Some(Side::Call),
        _ => None,
    }
}
