//! The names of a part of a word.
ghost use Rattle.std.specs.Prelude.{◌≡◌, ◌↔◌, ℕ, List, IfNone, IfSome, IsTrue};
ghost use Rattle.track_rules.specs.Protocols.{IsName, NamedRow, head_text};
ghost use Rattle.protocol_words.specs.Spellings.{IsHead, IsRow, named_row};

/// A row by its names, as a part of a word spells it.
#[derive(Clone, Copy)]
pub(crate) struct RowNames<'a> {
    /// The first state and the event with the blank between them: no two rows have one key.
    pub(crate) key: &'a str,
    pub(crate) from: &'a str,
    pub(crate) event: &'a str,
    pub(crate) to: &'a str,
}

// Whether the text is a name.
fn is_name(text: &str) -> bool
    ensures { IsTrue result ↔ IsName text.now }
{
    !text.is_empty() && !text.contains(' ') && !text.contains(';')
}

// `NAME NAME`.
pub(crate) fn two_names(part: &str) -> Option<(&str, &str)>
    ensures some { IfSome result (λ names. IsHead part.now names.0.now names.1.now) }
    ensures none { IfNone result ((first second : List ℕ) → IsHead part.now first second → ⊥) }
{
    let (first, second) = part.split_once(' ')?;
    if is_name(first) && is_name(second) {
        Some((first, second))
    } else {
        None
    }
}

// `STATE EVENT STATE`.
pub(crate) fn row_names(part: &str) -> Option<RowNames<'_>>
    ensures some { IfSome result (λ found. IsRow part.now (named_row found)) }
    ensures key { IfSome result (λ found. found.key.now ≡ head_text found.from.now found.event.now) }
    ensures none { IfNone result ((named : NamedRow) → IsRow part.now named → ⊥) }
{
    let (key, to) = part.rsplit_once(' ')?;
    let (from, event) = two_names(key)?;
    if is_name(to) {
        Some(RowNames {
            key,
            from,
            event,
            to,
        })
    } else {
        None
    }
}
