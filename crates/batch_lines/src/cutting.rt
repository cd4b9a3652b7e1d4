//! Texts, cut at a byte and at a line.
ghost use Rattle.std.specs.Prelude.{◌≡◌, ◌≤◌, ◌++◌, ◌∷◌, IfNone, IfSome, length};
ghost use Rattle.lists.specs.Lists.{Has};
ghost use Rattle.batch_lines.specs.Cuts.{before_mark, behind_mark, lines_of};

/// A program, and what stands behind it.
#[derive(Clone, Copy)]
pub struct Parts<'a> {
    pub program: &'a [u8],
    pub rest: &'a [u8],
}

/// What stands before the first such byte, and behind it.
pub(crate) fn split_once(text: &[u8], byte: u8) -> Option<(&[u8], &[u8])>
    ensures some { IfSome result (λ cut. text.now ≡ cut.0.now ++ byte ∷ cut.1.now) }
    ensures first { IfSome result (λ cut. Has cut.0.now byte → ⊥) }
    ensures none { IfNone result (Has text.now byte → ⊥) }
{
    let at = text.iter().position(|b| *b == byte)?;
    Some((&text[..at], &text[at + 1..]))
}

/// What stands before the first line that is exactly the mark, and behind it: where no line is, the program is all of the text and nothing stands behind
/// it. A line feed ends a line, and belongs to what stands before the mark. Takes no memory.
pub fn cut_at<'a>(text: &'a [u8], mark: &str) -> Parts<'a>
    ensures program { result.program.now ≡ before_mark mark.now (lines_of text.now) }
    ensures rest { result.rest.now ≡ behind_mark mark.now (lines_of text.now) }
    ensures part { length result.program.now ≤ length text.now }
{
    let mut at = 0;
    let mut left = text;
    while let Some((line, behind)) = split_once(left, b'\n') {
        if line == mark.as_bytes() {
            return Parts {
                program: &text[..at],
                rest: behind,
            };
        }
        at += line.len() + 1;
        left = behind;
    }
    let end = if left == mark.as_bytes() {
        at
    } else {
        text.len()
    };
    Parts {
        program: &text[..end],
        rest: &text[text.len()..],
    }
}
