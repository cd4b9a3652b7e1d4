//! What a name's text says.
ghost use Rattle.std.specs.Prelude.{◌≡◌, IfOk, IsFalse};
ghost use Rattle.jim_text.specs.Contents as say;

use super::NoMemory;
use std::alloc::Global;

/// Whether a name's text has a quote. If it has none, its contents are the text itself, and nothing needs a copy.
#[inline]
pub fn has_quote(text: &[u8]) -> bool
    ensures quote { result ≡ say.has_quote text.now }
    ensures plain { IsFalse result → say.contents text.now ≡ text.now }
{
    // Names are short: this takes less than a search that is made for long slices.
    for byte in text {
        if *byte == b'\'' {
            return true;
        }
    }
    false
}

/// The contents of a name: the bytes of its components without their quotes, joined by dots. Two names are one exactly
/// where their contents are the same bytes, so `'A'` and `A` are one name.
///
/// `NoMemory` comes where there is none for the copy.
pub fn contents(alloc: Global, text: &[u8]) -> Result<Vec<u8>, NoMemory>
    ensures { IfOk result (λ bytes. bytes.items ≡ say.contents text.now) }
{
    text.iter().copied().filter(|b| *b != b'\'').collect(alloc)
}
