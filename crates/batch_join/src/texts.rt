//! A text, and many of them in order.
ghost use Rattle.std.specs.Prelude.{◌≡◌, ◌<◌, ◌^◌, Some, length, slice_get};

use std::marker::Model;

/// A text. Contracts see it as its bytes.
#[derive(Drop)]
pub struct Text {
    bytes: Vec<u8>,
}

impl Model for Text {
    ghost use Rattle.std.specs.Prelude.{List, ℕ};

    ghost Value = { List ℕ };

    ghost view = { λ t. t.bytes.items };
}

impl Text {
    /// The text with these bytes. Takes no memory.
    pub fn from_vec(bytes: Vec<u8>) -> Self
        ensures { result ≡ bytes.items }
    {
        Text { bytes }
    }

    /// The bytes.
    pub fn as_slice(&self) -> &[u8]
        ensures { result.now ≡ self.now }
    {
        self.bytes.as_slice()
    }
}

/// Texts in order, fewer than 2^32. Contracts see them as a list.
#[derive(Drop)]
pub struct Texts {
    texts: Vec<Text>,
}

impl Model for Texts {
    ghost use Rattle.std.specs.Prelude.{List, ℕ, length, ◌<◌, ◌^◌};

    ghost Value = { List (List ℕ) };

    ghost view = { λ t. t.texts.items };

    ghost invariant = { λ t. length t.texts.items < 2 ^ 32 };
}

impl Texts {
    // These texts. Takes no memory.
    pub(crate) fn of(texts: Vec<Text>) -> Self
        requires { length texts.items < 2 ^ 32 }
        ensures { result ≡ texts.items }
    {
        Texts { texts }
    }

    /// How many there are. Takes no memory.
    pub fn len(&self) -> u32
        ensures { result ≡ length self.now }
    {
        self.texts.len() as u32
    }

    /// The text with the number. Takes no memory.
    pub fn text(&self, number: u32) -> &[u8]
        requires { number < length self.now }
        ensures { slice_get self.now number ≡ Some result.now }
    {
        self.texts[number as usize].as_slice()
    }
}
