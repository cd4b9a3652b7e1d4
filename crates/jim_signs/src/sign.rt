//! The signs of a text, and its names.
ghost use Rattle.std.specs.Prelude.{◌≡◌, ◌≢◌, ◌-◌, ◌<◌, ◌≤◌, ◌++◌, ◌∷◌, [], length, slice_index, codes, nat_eq, IsUtf8, IsTrue, IfOk, IfErr, OnOk, All, EachIndex};
ghost use Rattle.std.specs.List.{AllZip, starts_with};
ghost use Rattle.std.specs.Str.Parse.{digits_value};
ghost use Rattle.jim_text.specs.Contents as name;
ghost use Rattle.jim_text.specs.Lexes.{Begins, Explains, IsClassed, Lexes};
ghost use Rattle.jim_text.specs.Spelling.{Digits, is_digit};
ghost use Rattle.jim_signs.specs.Leads.{at_lead};
ghost use Rattle.jim_signs.specs.Names.{between_quotes, contents, names_of, place_of, text_of, with_contents, with_text};
ghost use Rattle.jim_signs.specs.Signs.{AreRead, IsBelow, IsNamed, at_number, sign_of, signs_of};

use super::seen::{Sign, Signs};
use jim_ast::Names;
use jim_text::{
    Ahead, Kind, Lead, LexError, Lexeme, Token, has_quote, mark_lead, next_token, word_lead,
};
use lists::NoMemory;
use std::alloc::Global;

// The number of a text among the names, which have it then.
fn number(names: &mut Names, text: &[u8]) -> Result<u32, NoMemory>
    requires { IsUtf8 text.now }
    ensures names { IfOk result (λ _. names.new ≡ with_text names.old text.now) }
    ensures place { IfOk result (λ number. number ≡ place_of names.new text.now) }
    ensures within { IfOk result (λ number. number < length names.new) }
{
    let id = names.add_bytes(text)?;
    Ok(id.0)
}

// Bytes that are known to be a text.
fn as_text(bytes: &[u8]) -> &str
    requires { IsUtf8 bytes.now }
    ensures { result.now ≡ bytes.now }
{
    let Ok(text) = str::from_utf8(bytes) else {
        unreachable!();
    };
    text
}

// Only a name with a quote is copied before it is looked up.
fn number_of_name(alloc: Global, names: &mut Names, text: &[u8]) -> Result<u32, NoMemory>
    requires { IsUtf8 text.now }
    ensures names { IfOk result (λ _. names.new ≡ with_text names.old (name.contents text.now)) }
    ensures place { IfOk result (λ number. number ≡ place_of names.new (name.contents text.now)) }
    ensures within { IfOk result (λ number. number < length names.new) }
{
    if !has_quote(text) {
        return number(names, text);
    }
    let plain = jim_text::contents(alloc, text)?;
    number(names, &plain)
}

// The number that at most five digits write.
fn number_of_digits(digits: &[u8]) -> u32
    requires few { length digits.now ≤ 5 }
    requires each { EachIndex digits.now (λ k. IsTrue (is_digit (slice_index digits.now k))) }
    ensures { result ≡ digits_value 10 digits.now }
{
    let mut number = 0;
    for digit in digits {
        number = number * 10 + (*digit - b'0') as u32;
    }
    number
}

fn number_of_text(names: &mut Names, text: &str) -> Result<u32, NoMemory>
    requires quotes { 2 ≤ length text.now }
    requires first { slice_index text.now 0 ≡ 34 }
    requires last { slice_index text.now (length text.now - 1) ≡ 34 }
    ensures names { IfOk result (λ _. names.new ≡ with_text names.old (between_quotes text.now)) }
    ensures place { IfOk result (λ number. number ≡ place_of names.new (between_quotes text.now)) }
    ensures within { IfOk result (λ number. number < length names.new) }
{
    number(names, text[1..text.len() - 1].as_bytes())
}

// The class and the number of a word with an at sign.
fn at_word(text: &[u8]) -> (Lead, u32)
    requires { IsTrue (starts_with nat_eq text.now (codes "@parameter")) → Digits is_digit 5 text.now 10 (length text.now) }
    ensures lead { result.0 ≡ at_lead text.now }
    ensures number { result.1 ≡ at_number text.now }
{
    if text == b"@this".as_slice() {
        (Lead::This, 0)
    } else if text == b"@caughtexception".as_slice() {
        (Lead::Caught, 0)
    } else if text.starts_with(b"@parameter") {
        (Lead::Parameter, number_of_digits(&text[10..]))
    } else {
        (Lead::Other, 0)
    }
}

// The sign of a token, whose contents are among the names then.
fn sign(alloc: Global, names: &mut Names, bytes: &[u8], lexeme: Lexeme) -> Result<Sign, NoMemory>
    requires begins { Begins bytes.now lexeme.token.kind lexeme.token.from lexeme.token.to }
    requires classed { IsClassed bytes.now lexeme.lead lexeme.token }
    ensures names { IfOk result (λ _. names.new ≡ with_contents names.old (contents lexeme.token.kind (text_of bytes.now lexeme.token))) }
    ensures sign { IfOk result (λ sign. sign ≡ sign_of bytes.now names.new lexeme.token) }
    ensures below { IfOk result (IsBelow (length names.new)) }
    ensures known { IfOk result (λ sign. sign.lead ≢ Lead.Other) }
{
    let token = lexeme.token;
    let text = &bytes[token.from as usize..token.to as usize];
    let (lead, number) = match token.kind {
        Kind::Word | Kind::Mark => (lexeme.lead, 0),
        Kind::Number => (Lead::Number, 0),
        Kind::At => at_word(text),
        Kind::Name => (Lead::Name, number_of_name(alloc, names, text)?),
        Kind::Text => (Lead::Text, number_of_text(names, as_text(text))?),
    };
    Ok(Sign { lead, text: number })
}

// The class of a token, but for the words with an at sign.
fn lead(bytes: &[u8], token: Token) -> Lead
    requires { Begins bytes.now token.kind token.from token.to }
    ensures { IsClassed bytes.now result token }
{
    let text = &bytes[token.from as usize..token.to as usize];
    match token.kind {
        Kind::Word => word_lead(text),
        Kind::Mark => mark_lead(text),
        Kind::Number => Lead::Number,
        Kind::Name => Lead::Name,
        Kind::Text => Lead::Text,
        Kind::At => Lead::Other,
    }
}

/// The names and the signs of a text with these tokens.
pub fn signs(alloc: Global, bytes: &[u8], tokens: &[Token]) -> Result<Signs, NoMemory>
    requires { Lexes bytes.now tokens.now }
    ensures names { IfOk result (λ found. found.names ≡ names_of bytes.now tokens.now) }
    ensures signs { IfOk result (λ found. found.signs.items ≡ signs_of bytes.now tokens.now) }
    ensures named { IfOk result (λ found. AllZip (IsNamed bytes.now found.names) tokens.now found.signs.items) }
    ensures below { IfOk result (λ found. All (IsBelow (length found.names)) found.signs.items) }
    ensures known { IfOk result (λ found. All (λ sign. sign.lead ≢ Lead.Other) found.signs.items) }
{
    let mut names = Names::new(alloc);
    let mut signs = Vec::with_capacity(alloc, tokens.len())?;
    for token in tokens {
        let lexeme = Lexeme {
            token: *token,
            lead: lead(bytes, *token),
        };
        signs.push(sign(alloc, &mut names, bytes, lexeme)?)?;
    }
    Ok(Signs { names, signs })
}

// Puts the sign of one more token.
fn put(alloc: Global, found: &mut Signs, bytes: &[u8], lexeme: Lexeme) -> Result<(), NoMemory>
    requires begins { Begins bytes.now lexeme.token.kind lexeme.token.from lexeme.token.to }
    requires classed { IsClassed bytes.now lexeme.lead lexeme.token }
    ensures names { OnOk result (found.new.names ≡ with_contents found.old.names (contents lexeme.token.kind (text_of bytes.now lexeme.token))) }
    ensures sign { OnOk result (found.new.signs.items ≡ found.old.signs.items ++ sign_of bytes.now found.new.names lexeme.token ∷ []) }
    ensures below { OnOk result (IsBelow (length found.new.names) (sign_of bytes.now found.new.names lexeme.token)) }
    ensures known { OnOk result ((sign_of bytes.now found.new.names lexeme.token).lead ≢ Lead.Other) }
{
    let sign = sign(alloc, &mut found.names, bytes, lexeme)?;
    found.signs.push(sign)?;
    Ok(())
}

/// The names and the signs of a text, whose tokens are looked at one by one as they are found: they are no list in memory.
///
/// `BadText { at }` comes exactly where bytes have no list of tokens, as with `jim_text::lex`. `NoMemory` comes where there is none for the names or the
/// signs.
pub fn read_signs(alloc: Global, bytes: &[u8]) -> Result<Signs, LexError>
    requires { length bytes.now ≤ 16777216 }
    ensures read { IfOk result (λ found. AreRead bytes.now found.names found.signs.items) }
    ensures error { IfErr result (Explains bytes.now) }
{
    let mut found = Signs {
        names: Names::new(alloc),
        signs: Vec::new(alloc),
    };
    let mut at = 0;
    loop {
        match next_token(bytes, at) {
            Ahead::Token(lexeme) => {
                put(alloc, &mut found, bytes, lexeme)?;
                at = lexeme.token.to as usize;
            }
            Ahead::End => return Ok(found),
            Ahead::Nothing { at } => return Err(LexError::BadText { at }),
        }
    }
}
