//! The tokens of a Jimple text: the profile's spellings, and the one list of tokens that bytes have.
//!
//! `lex` gives that list, or the first byte at which no blank, comment or token begins. The definitions stand in
//! `specs/`: what bytes are spelled as in `Spelling` and `Words`, the list in `Lexes`, what holds of all bytes in `Laws`,
//! and what a name says in `Contents`.
#![tactic(auto)]

mod chars;
mod comment;
mod content;
mod laws;
mod lead;
mod lexer;
mod mark;
mod name;
mod number;
mod text;
mod word;

pub use content::{contents, has_quote};
pub use laws::{has_one_list, spells_alone};
pub use lead::Lead;
pub use lexer::{lex, next_token};
pub use mark::mark_lead;
pub use std::alloc::AllocError as NoMemory;
pub use word::word_lead;

/// What a token is.
#[derive(Clone, Copy, Debug, PartialEq, Eq)]
pub enum Kind {
    /// A reserved word, as `class` or `virtualinvoke`.
    Word,
    /// `<init>`, `<clinit>`, or plain and quoted components joined by dots, as `$r0` or `java.'lang'.Object`.
    Name,
    /// A number, as `12L`, `0xff`, `1.5e-3f` or `#NaN`.
    Number,
    /// A text with its quotes, as `"a\\n"`.
    Text,
    /// `@this`, `@caughtexception`, or `@parameter` and its number.
    At,
    /// A mark, as `{` or `:=`.
    Mark,
}

/// A token: its kind, and its text as the bytes from one place up to, not including, another. Places count bytes from 0.
#[derive(Clone, Copy, Debug, PartialEq, Eq)]
pub struct Token {
    pub kind: Kind,
    pub from: u32,
    pub to: u32,
}

/// A token and its class, but for the words with an at sign, whose class is told by their text.
#[derive(Clone, Copy, Debug, PartialEq, Eq)]
pub struct Lexeme {
    pub token: Token,
    pub lead: Lead,
}

/// What stands behind a place, blanks and comments passed over.
#[derive(Clone, Copy, Debug, PartialEq, Eq)]
pub enum Ahead {
    /// A token, the longest at its place.
    Token(Lexeme),
    /// No more tokens.
    End,
    /// At this byte no blank, comment or token begins.
    Nothing { at: u32 },
}

/// Why bytes have no tokens.
#[derive(Clone, Copy, Debug, PartialEq, Eq)]
pub enum LexError {
    /// No blank, comment or token begins at this byte, and it is the first such one.
    BadText { at: u32 },
    /// There is no memory for the tokens.
    NoMemory,
}
