//! What single words of a command line spell.
ghost use Rattle.std.specs.Prelude.{◌≡◌, ◌≢◌, ◌^◌, ◌<◌, ◌≤◌, ◌↔◌, ℕ, List, Some, All, IfOk, IfSome, IsTrue};
ghost use Rattle.std.specs.Fmt.{decimal};
ghost use Rattle.std.specs.Char.{IsAsciiDigit};
ghost use Rattle.boom_words.specs.Fields.{AreFields, FieldName};
ghost use Rattle.boom_words.specs.Requests.{AreChoices, PointsTo, choices_word};
ghost use Rattle.boom_words.specs.Commands.{IfRefused, IsPlaced, points_to_of};

use super::fields::read_fields;
use super::request::Asked;
use lists::NoMemory;
use std::alloc::Global;

/// Why words aren't read: they aren't in the form that is asked, or memory wasn't found.
pub enum NotRead {
    Refused,
    NoMemory,
}

impl From<NoMemory> for NotRead {
    ghost use Rattle.std.specs.Prelude.{◌≡◌};
    ghost use Rattle.boom_words.specs.declared.word.NotRead.TheVariants.{NoMemory};

    ghost from_gives = { λ _ e. e ≡ NoMemory };

    fn from(_: NoMemory) -> Self {
        NotRead::NoMemory
    }
}

/// The most choices that a word names.
const MOST_CHOICES: usize = 1000;

/// The number that a word spells, if it is one below 2^32: decimal digits without a sign or a leading zero, as it would be printed.
pub fn number(alloc: Global, word: &str) -> Result<Option<u32>, NoMemory>
    ensures some { IfOk result (λ found. IfSome found (λ n. (n < 2 ^ 32) × (word.now ≡ decimal n))) }
    ensures only { IfOk result (λ found. (n : ℕ) → n < 2 ^ 32 → word.now ≡ decimal n → found ≡ Some n) }
{
    let Ok(number) = word.parse::<u32>() else {
        return Ok(None);
    };
    let printed = format!(in alloc; "{number}")?;
    if printed.as_str() == word {
        Ok(Some(number))
    } else {
        Ok(None)
    }
}

/// The number that a word spells, which may not be above this one.
pub fn number_to(alloc: Global, word: &str, most: u32) -> Result<u32, NotRead>
    ensures some { IfOk result (λ n. (word.now ≡ decimal n) × (n ≤ most)) }
    ensures none { IfRefused result ((n : ℕ) → word.now ≡ decimal n → n ≤ most → ⊥) }
{
    match number(alloc, word)? {
        Some(number) if number <= most => Ok(number),
        _ => Err(NotRead::Refused),
    }
}

/// The place that the words METHOD INDEX LOCAL name, with the number that the word BUDGET spells.
pub fn asked<'a>(
    alloc: Global,
    method: &'a str,
    index: &str,
    local: &'a str,
    budget: &str,
) -> Result<Asked<'a>, NotRead>
    ensures some { IfOk result (λ a. IsPlaced method.now index.now local.now budget.now (points_to_of a)) }
    ensures none { IfRefused result ((a : PointsTo) → IsPlaced method.now index.now local.now budget.now a → ⊥) }
{
    Ok(Asked {
        method,
        index: number_to(alloc, index, u32::MAX)?,
        local,
        budget: number_to(alloc, budget, u32::MAX)?,
    })
}

/// The word, if it spells the fields of a path.
pub fn path(alloc: Global, word: &str) -> Result<&str, NotRead>
    ensures some { IfOk result (λ fields. (fields.now ≡ word.now) × (names : List FieldName) × AreFields word.now names) }
    ensures none { IfRefused result ((names : List FieldName) → AreFields word.now names → ⊥) }
{
    match read_fields(alloc, word)? {
        Some(_) => Ok(word),
        None => Err(NotRead::Refused),
    }
}

// Whether all characters are decimal digits.
fn are_digits(characters: &[u8]) -> bool
    ensures { IsTrue result ↔ All IsAsciiDigit characters.now }
{
    characters.iter().all(|c| c.is_ascii_digit())
}

/// The choices that a word names: none for a dash, else its characters, if they are 1 to 1,000 decimal digits.
pub fn choices(word: &str) -> Result<&[u8], NotRead>
    ensures some { IfOk result (λ c. (word.now ≡ choices_word c.now) × AreChoices c.now) }
    ensures none { IfRefused result ((c : List ℕ) → word.now ≡ choices_word c → AreChoices c → ⊥) }
{
    let characters = word.as_bytes();
    if word == "-" {
        return Ok(&characters[1..]);
    }
    if characters.is_empty() || characters.len() > MOST_CHOICES || !are_digits(characters) {
        return Err(NotRead::Refused);
    }
    Ok(characters)
}
