//! Words that are numbers.
ghost use Rattle.std.specs.Prelude.{◌≡◌, ◌↔◌, ℕ, ◌^◌, ◌<◌, Some, IsTrue};
ghost use Rattle.cert_text.specs.Words.{IsPlain, SpellsNumber};

// Whether a word is decimal digits, one at least, and the first of several isn't zero.
fn is_plain(word: &[u8]) -> bool
    ensures { IsTrue result ↔ IsPlain word.now }
{
    let Some(first) = word.first() else {
        return false;
    };
    (*first != b'0' || word.len() == 1) && word.iter().all(|b| b.is_ascii_digit())
}

/// The number that a word spells: decimal digits without a sign or a leading zero, below 2^32.
pub(crate) fn number(word: &[u8]) -> Option<u32>
    ensures { (n : ℕ) → (result ≡ Some n) ↔ SpellsNumber word.now n }
{
    if !is_plain(word) {
        return None;
    }
    match str::from_utf8(word) {
        Ok(text) => text.parse::<u32>().ok(),
        Err(_) => None,
    }
}
