//! Numbers.
ghost use Rattle.std.specs.Prelude.{◌≡◌, ◌+◌, ◌<◌, ◌≤◌, length, slice_index};
ghost use Rattle.jim_text.specs.Spelling as spell;
ghost use Rattle.jim_text.specs.Ends.{DigitsEnd, IsEnd, OptionalEnd, is_digit_of, is_letter, is_number_lead};

use super::chars::{byte_at, has};

/// The digits of a number.
#[derive(Clone, Copy)]
pub(crate) enum Base {
    Decimal,
    Hexadecimal,
}

impl Base {
    #[inline]
    fn contains(self, b: u8) -> bool
        ensures { result ≡ is_digit_of self b }
    {
        match self {
            Base::Decimal => is_digit(b),
            Base::Hexadecimal => is_hex(b),
        }
    }
}

#[inline]
fn is_digit(b: u8) -> bool
    ensures { result ≡ spell.is_digit b }
{
    b >= b'0' && b <= b'9'
}

/// Whether a number may begin with the byte.
#[inline]
pub(crate) fn is_number_lead(b: u8) -> bool
    ensures { result ≡ is_number_lead b }
{
    is_digit(b) || b == b'#'
}

#[inline]
fn is_hex(b: u8) -> bool
    ensures { result ≡ spell.is_hex b }
{
    is_digit(b) || (b >= b'A' && b <= b'F') || (b >= b'a' && b <= b'f')
}

#[inline]
fn is_exponent(b: u8) -> bool
    ensures { result ≡ spell.is_exponent b }
{
    b == b'e' || b == b'E'
}

/// The letters and signs that a number may have at one place.
#[derive(Clone, Copy)]
enum Letter {
    Long,
    Float,
    Sign,
}

impl Letter {
    #[inline]
    fn contains(self, b: u8) -> bool
        ensures { result ≡ is_letter self b }
    {
        match self {
            Letter::Long => b == b'L',
            Letter::Float => b == b'f' || b == b'F',
            Letter::Sign => b == b'+' || b == b'-',
        }
    }
}

/// The end of the digits at a place, of which a token has so many at most.
#[inline]
pub(crate) fn digits_end(bytes: &[u8], at: usize, base: Base, most: usize) -> usize
    requires { at ≤ length bytes.now }
    ensures digits { DigitsEnd (is_digit_of base) most bytes.now at result }
    ensures within { result ≤ length bytes.now }
{
    let mut end = at;
    while end < bytes.len() {
        if end - at == most || !base.contains(bytes[end]) {
            return end;
        }
        end += 1;
    }
    end
}

// The place after the letter or sign that may stand at a place.
#[inline]
fn optional_end(bytes: &[u8], at: usize, letter: Letter) -> usize
    requires { at ≤ length bytes.now }
    ensures { OptionalEnd (is_letter letter) bytes.now at result }
{
    if at < bytes.len() && letter.contains(bytes[at]) {
        at + 1
    } else {
        at
    }
}

fn exponent_end(bytes: &[u8], at: usize) -> usize
    requires { at ≤ length bytes.now }
    ensures { IsEnd (spell.Exponent bytes.now at) at (length bytes.now) result }
{
    if !is_exponent(byte_at(bytes, at)) {
        return at;
    }
    let sign = optional_end(bytes, at + 1, Letter::Sign);
    let end = digits_end(bytes, sign, Base::Decimal, 38);
    if end == sign { at } else { end }
}

// A number that begins with a number sign.
fn special_end(bytes: &[u8], at: usize) -> usize
    requires within { at < length bytes.now }
    requires sign { slice_index bytes.now at ≡ 35 }
    ensures { IsEnd (spell.IsNumber bytes.now at) at (length bytes.now) result }
{
    if has(bytes, at, b"#NaN") {
        optional_end(bytes, at + 4, Letter::Float)
    } else if has(bytes, at, b"#Infinity") {
        optional_end(bytes, at + 9, Letter::Float)
    } else if has(bytes, at, b"#-Infinity") {
        optional_end(bytes, at + 10, Letter::Float)
    } else {
        at
    }
}

// A number that begins with `0x`, where hexadecimal digits follow, else `0` alone.
fn hexadecimal_end(bytes: &[u8], at: usize) -> usize
    requires within { at + 1 < length bytes.now }
    requires zero { slice_index bytes.now at ≡ 48 }
    requires x { slice_index bytes.now (at + 1) ≡ 120 }
    ensures { IsEnd (spell.IsNumber bytes.now at) at (length bytes.now) result }
{
    let end = digits_end(bytes, at + 2, Base::Hexadecimal, 32);
    if end == at + 2 {
        return at + 1;
    }
    optional_end(bytes, end, Letter::Long)
}

// A number that begins with digits, other than `0x`.
fn decimal_end(bytes: &[u8], at: usize) -> usize
    requires within { at < length bytes.now }
    requires sign { ¬ (slice_index bytes.now at ≡ 35) }
    requires x { slice_index bytes.now at ≡ 48 → ¬ (slice_index bytes.now (at + 1) ≡ 120) }
    ensures { IsEnd (spell.IsNumber bytes.now at) at (length bytes.now) result }
{
    let dot = digits_end(bytes, at, Base::Decimal, 38);
    if dot == at {
        return at;
    }
    if byte_at(bytes, dot) == b'.' {
        let fraction = digits_end(bytes, dot + 1, Base::Decimal, 38);
        if fraction > dot + 1 {
            let end = exponent_end(bytes, fraction);
            return optional_end(bytes, end, Letter::Float);
        }
    }
    optional_end(bytes, dot, Letter::Long)
}

/// The end of the longest number that begins at a place, or that place.
pub(crate) fn number_end(bytes: &[u8], at: usize) -> usize
    requires { at < length bytes.now }
    ensures { IsEnd (spell.IsNumber bytes.now at) at (length bytes.now) result }
{
    match bytes[at] {
        b'#' => special_end(bytes, at),
        b'0' if byte_at(bytes, at + 1) == b'x' => hexadecimal_end(bytes, at),
        _ => decimal_end(bytes, at),
    }
}
