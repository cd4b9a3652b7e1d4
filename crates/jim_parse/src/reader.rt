//! From tokens to a program.
ghost use Rattle.std.specs.Prelude.{◌≡◌, ◌^◌, ◌<◌, ◌≤◌, ℕ, List, length, IfOk, Err};
ghost use Rattle.jim_ast.specs.declared.syntax.Program.{Program};
ghost use Rattle.jim_text.specs.declared.Token.{Token as AToken};
ghost use Rattle.jim_text.specs.Lexes.{Lexes, StopsAt};
ghost use Rattle.jim_parse.specs.Derives.{Derives, IsRefusedAt, Spells};

use jim_ast::Program;
use jim_build::build;
use jim_grammar::least_refused;
use jim_signs::{Signs, read_signs, signs};
use jim_text::{LexError, Token};
use lists::NoMemory;
use std::alloc::Global;

/// Why tokens derive no program.
#[derive(Clone, Copy, Debug, PartialEq, Eq)]
pub enum ParseError {
    /// `at` is the place, from 0, of the first token with which no program goes on, or the number of tokens where the end comes too early.
    NotJimple { at: u32 },
    /// Memory that was asked for wasn't found.
    NoMemory,
}

impl From<NoMemory> for ParseError {
    ghost use Rattle.std.specs.Prelude.{◌≡◌};
    ghost use Rattle.jim_parse.specs.declared.reader.ParseError.TheVariants.{NoMemory};

    ghost from_gives = { λ _ e. e ≡ NoMemory };

    fn from(_error: NoMemory) -> Self {
        ParseError::NoMemory
    }
}

/// Why bytes spell no program.
#[derive(Clone, Copy, Debug, PartialEq, Eq)]
pub enum ReadError {
    /// No blank, comment or token begins at this byte, and it is the first such one.
    BadText { at: u32 },
    /// `at` is the place, from 0, of the first token with which no program goes on, or the number of tokens where the end comes too early.
    NotJimple { at: u32 },
    /// Memory that was asked for wasn't found.
    NoMemory,
}

impl From<NoMemory> for ReadError {
    ghost use Rattle.std.specs.Prelude.{◌≡◌};
    ghost use Rattle.jim_parse.specs.declared.reader.ReadError.TheVariants.{NoMemory};

    ghost from_gives = { λ _ e. e ≡ NoMemory };

    fn from(_error: NoMemory) -> Self {
        ReadError::NoMemory
    }
}

/// The program that bytes spell, at most 16,777,216 of them. It is read in one pass over the bytes, without a list of tokens.
///
/// `BadText` comes exactly where they have no list of tokens, and `NotJimple` where they have one that derives no program.
pub fn read(alloc: Global, bytes: &[u8]) -> Result<Program, ReadError>
    requires { length bytes.now ≤ 16777216 }
    ensures spelled { IfOk result (Spells bytes.now) }
    ensures only { IfOk result (λ program. (other : Program) → Spells bytes.now other → other ≡ program) }
    ensures text { (at : ℕ) → result ≡ Err (ReadError.BadText at) → StopsAt bytes.now at }
    ensures jimple { (at : ℕ) → result ≡ Err (ReadError.NotJimple at) → (tokens : List AToken) × Lexes bytes.now tokens × IsRefusedAt bytes.now tokens at }
{
    let Signs { names, signs } = match read_signs(alloc, bytes) {
        Ok(found) => found,
        Err(LexError::BadText { at }) => return Err(ReadError::BadText { at }),
        Err(LexError::NoMemory) => return Err(ReadError::NoMemory),
    };
    if let Some(at) = least_refused(alloc, &signs)? {
        return Err(ReadError::NotJimple { at: at as u32 });
    }
    Ok(build(alloc, names, &signs)?)
}

/// The program that the tokens of these bytes derive (the grammar is Soot's Jimple, for a fixed profile of it).
///
/// `NotJimple` comes exactly where they derive none.
pub fn parse(alloc: Global, bytes: &[u8], tokens: &[Token]) -> Result<Program, ParseError>
    requires few { length tokens.now < 2 ^ 32 }
    requires lexed { Lexes bytes.now tokens.now }
    ensures derived { IfOk result (Derives bytes.now tokens.now) }
    ensures only { IfOk result (λ program. (other : Program) → Derives bytes.now tokens.now other → other ≡ program) }
    ensures refused { (at : ℕ) → result ≡ Err (ParseError.NotJimple at) → IsRefusedAt bytes.now tokens.now at }
{
    let Signs { names, signs } = signs(alloc, bytes, tokens)?;
    match least_refused(alloc, &signs)? {
        Some(at) => Err(ParseError::NotJimple { at: at as u32 }),
        None => Ok(build(alloc, names, &signs)?),
    }
}
