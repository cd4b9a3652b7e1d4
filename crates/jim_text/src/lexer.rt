//! The lexer: at each place what begins there, by the first byte.
ghost use Rattle.std.specs.Prelude.{◌≡◌, ◌+◌, ◌^◌, ◌<◌, ◌≤◌, ℕ, length, vec_len, slice_index, IsFalse, MatchOption, IfOk, IfErr, IfSome, All, List};
ghost use Rattle.jim_text.specs.declared.Token.{Token as AToken};
ghost use Rattle.jim_text.specs.Spelling.{IsName};
ghost use Rattle.jim_text.specs.Ends.{IsMade, IsNameToken, is_lead, is_number_lead};
ghost use Rattle.jim_text.specs.Lexes.{Reads, NoTokenAt, TokenAt, Lexes, IsSpelled, InOrder, Explains, IsAhead, IsClassed};

use super::chars::is_blank;
use super::comment::comment_end;
use super::lead::Lead;
use super::mark::mark_end;
use super::name::{is_lead, name_end};
use super::number::{is_number_lead, number_end};
use super::text::{at_end, text_end};
use super::word::word_lead;
use super::{Ahead, Kind, LexError, Lexeme, Token};
use std::alloc::{AllocError, AllocFailed, Global};

impl From<AllocFailed<Token>> for LexError {
    ghost use Rattle.std.specs.Prelude.{◌≡◌};
    ghost use Rattle.jim_text.specs.declared.LexError.TheVariants.{NoMemory};

    ghost from_gives = { λ _ e. e ≡ NoMemory };

    fn from(_error: AllocFailed<Token>) -> Self {
        LexError::NoMemory
    }
}

impl From<AllocError> for LexError {
    ghost use Rattle.std.specs.Prelude.{◌≡◌};
    ghost use Rattle.jim_text.specs.declared.LexError.TheVariants.{NoMemory};

    ghost from_gives = { λ _ e. e ≡ NoMemory };

    fn from(_error: AllocError) -> Self {
        LexError::NoMemory
    }
}

// The token up to a place, unless that is where it would begin.
#[inline(always)]
fn made(kind: Kind, from: usize, to: usize) -> Option<Token>
    requires low { from < 2 ^ 32 }
    requires high { to < 2 ^ 32 }
    ensures { MatchOption result (from ≡ to) (IsMade kind from to) }
{
    if from == to {
        return None;
    }
    Some(Token {
        kind,
        from: from as u32,
        to: to as u32,
    })
}

// The longest name, reserved or not, and its class.
#[inline(always)]
fn name_at(bytes: &[u8], at: usize) -> (Option<Token>, Lead)
    requires long { length bytes.now < 2 ^ 32 }
    requires within { at < length bytes.now }
    ensures token { MatchOption result.0 ((to : ℕ) → ¬ (IsName bytes.now at to)) (IsNameToken bytes.now at) }
    ensures lead { IfSome result.0 (IsClassed bytes.now result.1) }
{
    let to = name_end(bytes, at);
    let lead = word_lead(&bytes[at..to]);
    if lead.is_known() {
        (made(Kind::Word, at, to), lead)
    } else {
        (made(Kind::Name, at, to), Lead::Name)
    }
}

// The longest token that begins with `<`, and its class.
#[inline(always)]
fn less_at(bytes: &[u8], at: usize) -> (Option<Token>, Lead)
    requires long { length bytes.now < 2 ^ 32 }
    requires within { at < length bytes.now }
    requires less { slice_index bytes.now at ≡ 60 }
    ensures token { MatchOption result.0 (NoTokenAt bytes.now at) (TokenAt bytes.now at) }
    ensures lead { IfSome result.0 (IsClassed bytes.now result.1) }
{
    match name_at(bytes, at) {
        (Some(token), lead) => (Some(token), lead),
        (None, _) => {
            let (to, lead) = mark_end(bytes, at);
            (made(Kind::Mark, at, to), lead)
        }
    }
}

// The longest mark, where nothing else can begin, and its class.
#[inline(always)]
fn mark_at(bytes: &[u8], at: usize) -> (Option<Token>, Lead)
    requires long { length bytes.now < 2 ^ 32 }
    requires within { at < length bytes.now }
    requires lead { IsFalse (is_lead (slice_index bytes.now at)) }
    requires less { ¬ (slice_index bytes.now at ≡ 60) }
    requires quote { ¬ (slice_index bytes.now at ≡ 34) }
    requires sign { ¬ (slice_index bytes.now at ≡ 64) }
    requires digit { IsFalse (is_number_lead (slice_index bytes.now at)) }
    ensures token { MatchOption result.0 (NoTokenAt bytes.now at) (TokenAt bytes.now at) }
    ensures lead { IfSome result.0 (IsClassed bytes.now result.1) }
{
    let (to, lead) = mark_end(bytes, at);
    (made(Kind::Mark, at, to), lead)
}

// The longest token that begins at a place, and its class.
#[inline(always)]
fn token_at(bytes: &[u8], at: usize) -> (Option<Token>, Lead)
    requires long { length bytes.now < 2 ^ 32 }
    requires within { at < length bytes.now }
    ensures token { MatchOption result.0 (NoTokenAt bytes.now at) (TokenAt bytes.now at) }
    ensures lead { IfSome result.0 (IsClassed bytes.now result.1) }
{
    let first = bytes[at];
    if is_lead(first) {
        name_at(bytes, at)
    } else if first == b'"' {
        (made(Kind::Text, at, text_end(bytes, at)), Lead::Text)
    } else if first == b'@' {
        (made(Kind::At, at, at_end(bytes, at)), Lead::Other)
    } else if is_number_lead(first) {
        (made(Kind::Number, at, number_end(bytes, at)), Lead::Number)
    } else if first == b'<' {
        less_at(bytes, at)
    } else {
        mark_at(bytes, at)
    }
}

// The end of the blanks that stand at a place.
#[inline]
fn blanks_end(bytes: &[u8], at: usize) -> usize
    requires { at ≤ length bytes.now }
    ensures low { at ≤ result }
    ensures within { result ≤ length bytes.now }
    ensures read { (to : ℕ) (tokens : List AToken) → Reads bytes.now result to tokens → Reads bytes.now at to tokens }
{
    let mut end = at;
    while end < bytes.len() && is_blank(bytes[end]) {
        end += 1;
    }
    end
}

/// What stands behind a place, which is given as bytes from 0.
#[inline(always)]
pub fn next_token(bytes: &[u8], from: usize) -> Ahead
    requires long { length bytes.now < 2 ^ 32 }
    requires within { from ≤ length bytes.now }
    ensures { IsAhead bytes.now from result }
{
    let mut at = from;
    while at < bytes.len() {
        if is_blank(bytes[at]) {
            at = blanks_end(bytes, at + 1);
        } else if let Some(to) = comment_end(bytes, at) {
            at = to;
        } else {
            return match token_at(bytes, at) {
                (Some(token), lead) => Ahead::Token(Lexeme { token, lead }),
                (None, _) => Ahead::Nothing { at: at as u32 },
            };
        }
    }
    Ahead::End
}

/// Cuts a text into its tokens: at each place the longest that begins there, with blanks and comments passed over.
///
/// The text is any bytes, at most 16,777,216 of them. A token's text is `bytes[from..to]`, byte places from 0. The
/// tokens come in the order of the text; none is empty, and none stands over another, so there are at most as many as
/// there are bytes. The time is linear in the bytes, whatever they are.
///
/// `BadText { at }` comes exactly where bytes have no list of tokens: `at` is the first byte at which no blank, comment
/// or token begins. A comment, a text or a quoted component without an end, or with a malformed character before its
/// end, does not begin. `NoMemory` comes where there is none for the list.
pub fn lex(alloc: Global, bytes: &[u8]) -> Result<Vec<Token>, LexError>
    requires { length bytes.now ≤ 16777216 }
    ensures tokens { IfOk result (λ tokens. Lexes bytes.now tokens.items) }
    ensures spelled { IfOk result (λ tokens. All (IsSpelled bytes.now) tokens.items) }
    ensures order { IfOk result (λ tokens. InOrder 0 tokens.items (length bytes.now)) }
    ensures few { IfOk result (λ tokens. vec_len tokens ≤ length bytes.now) }
    ensures error { IfErr result (Explains bytes.now) }
{
    let mut tokens = Vec::new(alloc);
    let mut at = 0;
    loop {
        match next_token(bytes, at) {
            Ahead::Token(lexeme) => {
                tokens.push(lexeme.token)?;
                at = lexeme.token.to as usize;
            }
            Ahead::End => return Ok(tokens),
            Ahead::Nothing { at } => return Err(LexError::BadText { at }),
        }
    }
}
