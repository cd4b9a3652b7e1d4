//! Texts cut at marks.
ghost use Rattle.std.specs.Prelude.{◌≡◌, ◌==◌, ◌++◌, ◌∷◌, IfNone, IfOk, IfSome};
ghost use Rattle.std.specs.List.{slice_split};
ghost use Rattle.lists.specs.Lists.{Has};
ghost use Rattle.cert_text.specs.Words.{texts};

use lists::NoMemory;
use std::alloc::Global;

/// What stands before the first mark, and what stands behind it.
pub(crate) fn cut(text: &[u8], mark: u8) -> Option<(&[u8], &[u8])>
    ensures some { IfSome result (λ cut. text.now ≡ cut.0.now ++ mark ∷ cut.1.now) }
    ensures first { IfSome result (λ cut. Has cut.0.now mark → ⊥) }
    ensures none { IfNone result (Has text.now mark → ⊥) }
{
    let at = text.iter().position(|b| *b == mark)?;
    Some((&text[..at], &text[at + 1..]))
}

/// The parts between marks: one more than there are marks.
pub(crate) fn parts(alloc: Global, text: &[u8], mark: u8) -> Result<Vec<&[u8]>, NoMemory>
    ensures { IfOk result (λ parts. texts parts.items ≡ slice_split (λ b. b == mark) text.now) }
{
    let mut parts = Vec::new(alloc);
    let mut rest = text;
    while let Some((part, behind)) = cut(rest, mark) {
        parts.push(part)?;
        rest = behind;
    }
    parts.push(rest)?;
    Ok(parts)
}
