//! The names of a program.
ghost use Rattle.std.specs.Prelude.{◌≡◌, ◌^◌, ◌+◌, ◌<◌, ◌↔◌, ◌⊎◌, ◌∷◌, ◌++◌, [], length, map, slice_get, string_bytes, Some, IfOk, IfSome, IfNone, IsSomeAnd, OnErr, OnOk, List, ℕ, cond, vec_len, vec_capacity, IsUtf8};
ghost use Rattle.std.specs.BTreeMap.{get_by_text};
ghost use Rattle.std.specs.Str.{bytes_eq};
ghost use Rattle.lists.specs.Lists.{Has, Adds, IsApart};
ghost use Rattle.jim_ast.specs.Notes.{IsFiled, IsIndexed, IsNoted};

use super::notes::{Notes, hash_of};
use lists::NoMemory;
use std::alloc::{AllocError, Global};
use std::collections::BTreeMap;
use std::marker::Model;

/// The number of a name among a program's names, from 0 in the order in which they came.
#[derive(Clone, Copy, Debug, PartialEq, Eq, PartialOrd, Ord)]
pub struct NameId(pub u32);

/// An ordered set of texts, which contracts see as the list of their bytes, no text twice.
///
/// A text is found by its note, and where other notes stand in all slots that are looked at for its hash, in an ordered map. So a look-up compares at most
/// eight texts and some logarithm of them more, whatever the texts are.
#[derive(Drop)]
pub struct Names {
    alloc: Global,
    texts: Vec<String>,
    notes: Notes,
    // The numbers of the texts for which no slot was left.
    others: BTreeMap<String, u32>,
}

impl Model for Names {
    ghost use Rattle.std.specs.Prelude.{List, ℕ, map, length, string_bytes, ◌<◌, ◌^◌};
    ghost use Rattle.std.specs.BTreeMap.{get_by_text};
    ghost use Rattle.jim_ast.specs.Notes.{IsIndexed};

    ghost Value = { List (List ℕ) };

    ghost view = { λ t. map string_bytes t.texts.items };

    ghost invariant = { λ t. (length t.texts.items < 2 ^ 32) × IsIndexed (map string_bytes t.texts.items) t.notes.slots.items (get_by_text t.others) };
}

// Bytes that are known to be a text.
fn as_text(bytes: &[u8]) -> &str
    requires { IsUtf8 bytes.now }
    ensures { result.now ≡ bytes.now }
{
    let Ok(text) = str::from_utf8(bytes) else {
        unreachable!();
    };
    text
}

// Puts the number of a text.
fn put(
    alloc: Global,
    numbers: &mut BTreeMap<String, u32>,
    text: &str,
    number: u32,
) -> Result<(), NoMemory>
    ensures put { OnOk result ((t : List ℕ) → get_by_text numbers.new t ≡ cond (bytes_eq t text.now) (Some number) (get_by_text numbers.old t)) }
    ensures err { OnErr result ((t : List ℕ) → get_by_text numbers.new t ≡ get_by_text numbers.old t) }
{
    let key = String::from_str(alloc, text)?;
    numbers.insert(key, number)?;
    Ok(())
}

// Notes the number of a text, or puts it among the others where there is no slot for its note.
fn file(
    alloc: Global,
    notes: &mut Notes,
    others: &mut BTreeMap<String, u32>,
    text: &str,
    number: u32,
) -> Result<(), NoMemory>
    requires { number + 1 < 2 ^ 32 }
    ensures filed { OnOk result (IsFiled notes.new.slots.items (get_by_text others.new) text.now number) }
    ensures kept { (h i : ℕ) → IsNoted notes.old.slots.items h i → IsNoted notes.new.slots.items h i }
    ensures puts { (t : List ℕ) → (get_by_text others.new t ≡ get_by_text others.old t) ⊎ ((t ≡ text.now) × (get_by_text others.new t ≡ Some number)) }
    ensures err { OnErr result ((t : List ℕ) → get_by_text others.new t ≡ get_by_text others.old t) }
{
    if notes.note(hash_of(text.as_bytes()), number) {
        return Ok(());
    }
    put(alloc, others, text, number)?;
    Ok(())
}

// Files each text anew that the old slots have a note of. The rest stands among the others, and stays there.
fn file_all(
    alloc: Global,
    texts: &[String],
    old: &Notes,
    notes: &mut Notes,
    others: &mut BTreeMap<String, u32>,
) -> Result<(), NoMemory>
    requires few { length texts.now < 2 ^ 32 }
    requires indexed { IsIndexed (map string_bytes texts.now) old.now.slots.items (get_by_text others.old) }
    ensures sound { (t : List ℕ) (i : ℕ) → get_by_text others.new t ≡ Some i → slice_get (map string_bytes texts.now) i ≡ Some t }
    ensures kept { (t : List ℕ) (i : ℕ) → get_by_text others.old t ≡ Some i → get_by_text others.new t ≡ Some i }
    ensures each { OnOk result ((i : ℕ) (t : List ℕ) → slice_get (map string_bytes texts.now) i ≡ Some t → IsFiled notes.new.slots.items (get_by_text others.new) t i) }
{
    for number in 0..texts.len() {
        let text = texts[number].as_str();
        if others.is_empty() || old.has(hash_of(text.as_bytes()), number as u32) {
            file(alloc, notes, others, text, number as u32)?;
        }
    }
    Ok(())
}

// Puts a text last, for which there is room.
fn append(texts: &mut Vec<String>, text: String)
    requires { vec_len texts.old < vec_capacity texts.old }
    ensures { texts.new.items ≡ texts.old.items ++ text ∷ [] }
{
    let _ = texts.push(text);
}

impl Names {
    /// The empty set. Takes no memory.
    pub fn new(alloc: Global) -> Self
        ensures { result ≡ [] }
    {
        Names {
            alloc,
            texts: Vec::new(alloc),
            notes: Notes::new(alloc),
            others: BTreeMap::new(alloc),
        }
    }

    /// How many names there are. No two of them have the same text.
    pub fn len(&self) -> u32
        ensures value { result ≡ length self.now }
        ensures apart { IsApart self.now }
    {
        self.texts.len() as u32
    }

    /// The text of a name, whose number is below `len`. Takes no memory.
    pub fn text(&self, id: NameId) -> &str
        requires { id.0 < length self.now }
        ensures { slice_get self.now id.0 ≡ Some result.now }
    {
        self.texts[id.0 as usize].as_str()
    }

    // The number of the text that has these bytes.
    #[inline]
    fn number(&self, text: &[u8]) -> Option<u32>
        requires { IsUtf8 text.now }
        ensures value { (i : ℕ) → (result ≡ Some i) ↔ (slice_get self.now i ≡ Some text.now) }
        ensures apart { IsApart self.now }
    {
        if let Some(number) = self.notes.find(&self.texts, text, hash_of(text)) {
            return Some(number);
        }
        self.others.get(as_text(text)).copied()
    }

    /// The name with this text, if there is one. Takes no memory.
    pub fn find(&self, text: &str) -> Option<NameId>
        ensures found { IfSome result (λ id. slice_get self.now id.0 ≡ Some text.now) }
        ensures only { (i : ℕ) → slice_get self.now i ≡ Some text.now → IsSomeAnd result (λ id. id.0 ≡ i) }
        ensures none { IfNone result (¬ Has self.now text.now) }
    {
        let number = self.number(text.as_bytes())?;
        Some(NameId(number))
    }

    // Makes slots anew where those that are there are too few.
    fn make_slots(&mut self) -> Result<(), NoMemory>
        ensures { self.new ≡ self.old }
    {
        if !self.notes.are_few(self.texts.len()) {
            return Ok(());
        }
        let mut notes = Notes::room_for(self.alloc, self.texts.len())?;
        file_all(
            self.alloc,
            &self.texts,
            &self.notes,
            &mut notes,
            &mut self.others,
        )?;
        self.notes = notes;
        Ok(())
    }

    // Puts a new text last.
    fn add_new(&mut self, text: &str) -> Result<u32, NoMemory>
        requires { Has self.old text.now → ⊥ }
        ensures number { IfOk result (λ number. number ≡ length self.old) }
        ensures last { OnOk result (self.new ≡ self.old ++ text.now ∷ []) }
        ensures err { OnErr result (self.new ≡ self.old) }
    {
        self.make_slots()?;
        let count = self.texts.len();
        if count >= u32::MAX as usize {
            return Err(AllocError);
        }
        self.texts.reserve(1)?;
        let owned = String::from_str(self.alloc, text)?;
        file(
            self.alloc,
            &mut self.notes,
            &mut self.others,
            text,
            count as u32,
        )?;
        append(&mut self.texts, owned);
        Ok(count as u32)
    }

    /// The name with this text. A new one is put last, and only then is the text copied. A set that is full, with 4,294,967,295 names, finds
    /// no memory. Where memory is wanting, nothing changed.
    pub fn add(&mut self, text: &str) -> Result<NameId, NoMemory>
        ensures added { IfOk result (λ id. slice_get self.new id.0 ≡ Some text.now) }
        ensures last { IfOk result (λ _. Adds self.old text.now self.new) }
        ensures apart { IsApart self.new }
        ensures err { OnErr result (self.new ≡ self.old) }
    {
        self.add_bytes(text.as_bytes())
    }

    /// The same of bytes that are known to be a text. Whether they are isn't looked at again but for a text without a note.
    pub fn add_bytes(&mut self, text: &[u8]) -> Result<NameId, NoMemory>
        requires { IsUtf8 text.now }
        ensures added { IfOk result (λ id. slice_get self.new id.0 ≡ Some text.now) }
        ensures last { IfOk result (λ _. Adds self.old text.now self.new) }
        ensures apart { IsApart self.new }
        ensures err { OnErr result (self.new ≡ self.old) }
    {
        if let Some(number) = self.number(text) {
            return Ok(NameId(number));
        }
        let number = self.add_new(as_text(text))?;
        Ok(NameId(number))
    }
}
