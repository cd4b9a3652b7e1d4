//! Paths of fields, as a word spells them.
ghost use Rattle.std.specs.Prelude.{◌≡◌, ◌↔◌, List, IfNone, IfOk, IfSome, IsTrue, map};
ghost use Rattle.boom_words.specs.Fields.{AreFields, FieldName, IsPlain, IsPlainName, SpellsField, field_name, field_parts, texts};

use lists::NoMemory;
use std::alloc::Global;

/// A field of a path, as a part of a word spells it.
#[derive(Clone, Copy)]
pub enum FieldWord<'a> {
    /// The cells of an array: `[]`.
    Cells,
    /// The field that a class declares under a name: `CLASS:NAME`.
    Named { class: &'a str, name: &'a str },
}

/// The most fields of a path.
const MOST_FIELDS: usize = 4;

// Whether a character may stand in a class or a name.
fn is_plain(b: u8) -> bool
    ensures { IsTrue result ↔ IsPlain b }
{
    !b.is_ascii_whitespace() && b != b',' && b != b':'
}

// Whether a text may be a class or a name.
fn is_plain_name(text: &str) -> bool
    ensures { IsTrue result ↔ IsPlainName text.now }
{
    !text.is_empty() && text.as_bytes().iter().all(|b| is_plain(*b))
}

// The field that a part spells.
fn field_word(part: &str) -> Option<FieldWord<'_>>
    ensures some { IfSome result (λ field. SpellsField part.now (field_name field)) }
    ensures none { IfNone result ((field : FieldName) → SpellsField part.now field → ⊥) }
{
    if part == "[]" {
        return Some(FieldWord::Cells);
    }
    let (class, name) = part.split_once(':')?;
    if is_plain_name(class) && is_plain_name(name) {
        Some(FieldWord::Named { class, name })
    } else {
        None
    }
}

// The parts of a word between its commas.
fn parts_of(alloc: Global, word: &str) -> Result<Vec<&str>, NoMemory>
    ensures { IfOk result (λ parts. texts parts.items ≡ field_parts word.now) }
{
    let parts: Vec<&str> = word.split(',').collect(alloc)?;
    Ok(parts)
}

/// The fields of the path that a word spells, if it spells one: 1 to 4 parts with a comma between each two, where a part is `[]` or `CLASS:NAME`. A class
/// and a name are one or more characters other than blanks, comma and colon.
pub fn read_fields(alloc: Global, word: &str) -> Result<Option<Vec<FieldWord<'_>>>, NoMemory>
    ensures some { IfOk result (λ found. IfSome found (λ fields. AreFields word.now (map field_name fields.items))) }
    ensures none { IfOk result (λ found. IfNone found ((fields : List FieldName) → AreFields word.now fields → ⊥)) }
{
    let parts = parts_of(alloc, word)?;
    if parts.len() > MOST_FIELDS {
        return Ok(None);
    }
    let mut fields = Vec::new(alloc);
    for part in parts.as_slice() {
        let Some(field) = field_word(part) else {
            return Ok(None);
        };
        fields.push(field)?;
    }
    Ok(Some(fields))
}
