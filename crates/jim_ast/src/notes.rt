//! Notes of the numbers of texts.
ghost use Rattle.std.specs.Prelude.{◌≡◌, ◌≢◌, ◌+◌, ◌<◌, ◌^◌, ◌↔◌, ℕ, IfSome, IsTrue, None, Some, length, map, slice_get, slice_index, string_bytes};
ghost use Rattle.jim_ast.specs.Notes.{IsNoted, hash, looks, slot_of};

use lists::same_bytes;
use std::alloc::{AllocError, Global};
use std::hash::{FoldHasher, Hasher};

/// In so many slots, from that of its hash on, a text's note is looked for.
const LOOKS: usize = 8;

/// At least so many slots stand there for each text when slots are made anew.
const SPREAD: usize = 16;

/// Numbers of texts, each in a slot near that of the text's hash. A note says a number alone, whose text is compared.
#[derive(Drop)]
pub(crate) struct Notes {
    // The number larger by one, and 0 where a slot has no note. There are none or a power of two.
    slots: Vec<u32>,
}

/// The hash of a text's bytes.
#[inline]
pub(crate) fn hash_of(text: &[u8]) -> usize
    ensures { result ≡ hash text.now }
{
    let mut hasher = FoldHasher::default();
    hasher.write(text);
    hasher.finish() as usize
}

/// Whether the text of these bytes has the number.
#[inline]
fn has_number(texts: &[String], number: u32, text: &[u8]) -> bool
    ensures { IsTrue result ↔ (slice_get (map string_bytes texts.now) number ≡ Some text.now) }
{
    if (number as usize) < texts.len() {
        same_bytes(texts[number as usize].as_bytes(), text)
    } else {
        false
    }
}

// The slot so many steps behind that of a hash, of so many.
#[inline]
fn slot(hash: usize, step: usize, slots: usize) -> usize
    requires { 0 < slots }
    ensures value { result ≡ slot_of hash step slots }
    ensures within { result < slots }
{
    hash.wrapping_add(step) & (slots - 1)
}

impl Notes {
    /// No slots. Takes no memory.
    pub(crate) fn new(alloc: Global) -> Self
        ensures { length result.slots.items ≡ 0 }
    {
        Notes {
            slots: Vec::new(alloc),
        }
    }

    /// Slots without notes, with room for so many texts and more.
    pub(crate) fn room_for(alloc: Global, texts: usize) -> Result<Self, AllocError>
        requires { texts < 2 ^ 32 }
    {
        let slots = vec![in alloc; 0u32; (texts.max(SPREAD) * SPREAD).next_power_of_two()]?;
        Ok(Notes { slots })
    }

    /// Whether a quarter of the slots would have a note with so many texts.
    pub(crate) fn are_few(&self, texts: usize) -> bool
        requires { texts < 2 ^ 32 }
    {
        texts * 4 >= self.slots.len()
    }

    /// The number of a text with this hash, where it is noted.
    #[inline]
    pub(crate) fn find(&self, texts: &[String], text: &[u8], hash: usize) -> Option<u32>
        ensures found { IfSome result (λ i. slice_get (map string_bytes texts.now) i ≡ Some text.now) }
        ensures missed { result ≡ None → (i : ℕ) → IsNoted self.now.slots.items hash i → slice_get (map string_bytes texts.now) i ≢ Some text.now }
    {
        if self.slots.is_empty() {
            return None;
        }
        for step in 0..LOOKS {
            let noted = self.slots[slot(hash, step, self.slots.len())];
            if noted > 0 && has_number(texts, noted - 1, text) {
                return Some(noted - 1);
            }
        }
        None
    }

    /// Whether the number of a text with this hash is noted.
    pub(crate) fn has(&self, hash: usize, number: u32) -> bool
        requires { number + 1 < 2 ^ 32 }
        ensures { IsTrue result ↔ IsNoted self.now.slots.items hash number }
    {
        if self.slots.is_empty() {
            return false;
        }
        for step in 0..LOOKS {
            if self.slots[slot(hash, step, self.slots.len())] == number + 1 {
                return true;
            }
        }
        false
    }

    // The first slot for a hash that has no note.
    fn free(&self, hash: usize) -> Option<usize>
        ensures { IfSome result (λ at. (at < length self.now.slots.items) × (slice_index self.now.slots.items at ≡ 0) × (step : ℕ) × (step < looks) × (at ≡ slot_of hash step (length self.now.slots.items))) }
    {
        if self.slots.is_empty() {
            return None;
        }
        for step in 0..LOOKS {
            let at = slot(hash, step, self.slots.len());
            if self.slots[at] == 0 {
                return Some(at);
            }
        }
        None
    }

    /// Notes the number of a text with this hash, and tells whether there is a slot for it.
    pub(crate) fn note(&mut self, hash: usize, number: u32) -> bool
        requires { number + 1 < 2 ^ 32 }
        ensures noted { IsTrue result → IsNoted self.new.slots.items hash number }
        ensures kept { (h i : ℕ) → IsNoted self.old.slots.items h i → IsNoted self.new.slots.items h i }
    {
        let Some(at) = self.free(hash) else {
            return false;
        };
        self.slots[at] = number + 1;
        true
    }
}
