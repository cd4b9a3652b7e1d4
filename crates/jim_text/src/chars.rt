//! Characters in bytes that may be no text.
ghost use Rattle.std.specs.Prelude.{◌≡◌, ◌+◌, ◌<◌, ◌≤◌, [], length, MatchOption, slice_index, IsTrue, ◌↔◌};
ghost use Rattle.std.specs.Char.{len_utf8};
ghost use Rattle.std.specs.Str.{StartsWithNoChar};
ghost use Rattle.unicode_ident.specs.Ident.{is_xid_continue, is_xid_start};
ghost use Rattle.jim_text.specs.Chars.{Leads, CharAt, NoCharAt, Run, Stops, Has};
ghost use Rattle.jim_text.specs.Ends.{is_in};
ghost use Rattle.jim_text.specs.Spelling as spell;

/// Of each ASCII character 1 where it goes on a plain component, else 0.
const CONTINUES: [u8; 128] = [
    0, 0, 0, 0, 0, 0, 0, 0, 0, 0, 0, 0, 0, 0, 0, 0, 0, 0, 0, 0, 0, 0, 0, 0, 0, 0, 0, 0, 0, 0, 0, 0,
    0, 0, 0, 1, 1, 0, 0, 0, 0, 0, 0, 0, 0, 1, 0, 0, 1, 1, 1, 1, 1, 1, 1, 1, 1, 1, 0, 0, 0, 0, 0, 0,
    0, 1, 1, 1, 1, 1, 1, 1, 1, 1, 1, 1, 1, 1, 1, 1, 1, 1, 1, 1, 1, 1, 1, 1, 1, 1, 1, 0, 0, 0, 0, 1,
    0, 1, 1, 1, 1, 1, 1, 1, 1, 1, 1, 1, 1, 1, 1, 1, 1, 1, 1, 1, 1, 1, 1, 1, 1, 1, 1, 0, 0, 0, 0, 0,
];

/// Characters that stand together.
#[derive(Clone, Copy)]
pub(crate) enum Class {
    InLine,
    Continue,
    Quoted,
}

/// The byte at a place, or 0 past the end.
#[inline]
pub(crate) fn byte_at(bytes: &[u8], at: usize) -> u8
    ensures { result ≡ slice_index bytes.now at }
{
    if at < bytes.len() { bytes[at] } else { 0 }
}

/// Whether these bytes stand at a place.
#[inline]
pub(crate) fn has(bytes: &[u8], at: usize, text: &[u8]) -> bool
    requires { at ≤ length bytes.now }
    ensures { IsTrue result ↔ Has bytes.now at text.now }
{
    bytes.len() - at >= text.len() && &bytes[at..at + text.len()] == text
}

fn head(text: &str) -> Option<char>
    ensures { MatchOption result (text.now ≡ []) (Leads text.now) }
{
    text.chars().next()
}

// The character that begins these bytes.
fn first_char(bytes: &[u8]) -> Option<char>
    ensures { MatchOption result (StartsWithNoChar bytes.now) (Leads bytes.now) }
{
    match str::from_utf8(bytes) {
        Ok(text) => head(text),
        Err(error) => match str::from_utf8(&bytes[..error.valid_up_to()]) {
            Ok(front) => head(front),
            Err(_) => None,
        },
    }
}

// A character has four bytes at most. Kept out of line, so that ASCII is read in place.
#[inline(never)]
fn wide_char_at(bytes: &[u8], at: usize) -> Option<char>
    requires { at ≤ length bytes.now }
    ensures { MatchOption result (NoCharAt bytes.now at) (λ c. CharAt bytes.now at c (at + len_utf8 c)) }
{
    let end = if bytes.len() - at < 4 {
        bytes.len()
    } else {
        at + 4
    };
    first_char(&bytes[at..end])
}

/// The character at a place, and the place after it.
#[inline(always)]
pub(crate) fn char_at(bytes: &[u8], at: usize) -> Option<(char, usize)>
    requires { at < length bytes.now }
    ensures place { MatchOption result (NoCharAt bytes.now at) (λ found. CharAt bytes.now at found.0 found.1) }
    ensures within { MatchOption result (Unit {0}) (λ found. (at < found.1) × (found.1 ≤ length bytes.now)) }
{
    let first = bytes[at];
    if first < 128 {
        Some((first as char, at + 1))
    } else {
        let c = wide_char_at(bytes, at)?;
        Some((c, at + c.len_utf8()))
    }
}

impl Class {
    #[inline]
    fn contains(self, c: char) -> bool
        ensures { result ≡ is_in self c }
    {
        match self {
            Class::InLine => c != '\n',
            Class::Continue => is_continue(c),
            Class::Quoted => is_in_quotes(c),
        }
    }
}

impl Class {
    /// The same of an ASCII character, without looking into Unicode's tables.
    #[inline]
    fn contains_byte(self, b: u8) -> bool
        requires { b < 128 }
        ensures { result ≡ is_in self b }
    {
        match self {
            Class::Continue => CONTINUES[b as usize] != 0,
            _ => self.contains(b as char),
        }
    }
}

#[inline]
pub(crate) fn is_blank(b: u8) -> bool
    ensures { result ≡ spell.is_blank b }
{
    b == b' ' || b == b'\t' || b == b'\n' || b == b'\r' || b == 12
}

#[inline]
fn is_blank_char(c: char) -> bool
    ensures { result ≡ spell.is_blank c }
{
    c == ' ' || c == '\t' || c == '\n' || c == '\r' || c == '\x0c'
}

#[inline]
pub(crate) fn is_start(c: char) -> bool
    ensures { result ≡ spell.is_start c }
{
    is_xid_start(c) || c == '$' || c == '_'
}

// The property, at once for ASCII.
#[inline]
fn is_xid_start(c: char) -> bool
    ensures { result ≡ is_xid_start c }
{
    if c < '\u{80}' {
        c.is_ascii_alphabetic()
    } else {
        unicode_ident::is_xid_start(c)
    }
}

// The property, at once for ASCII.
#[inline]
fn is_xid_continue(c: char) -> bool
    ensures { result ≡ is_xid_continue c }
{
    if c < '\u{80}' {
        c.is_ascii_alphanumeric() || c == '_'
    } else {
        unicode_ident::is_xid_continue(c)
    }
}

#[inline]
fn is_continue(c: char) -> bool
    ensures { result ≡ spell.is_continue c }
{
    is_xid_continue(c) || c == '$' || c == '#' || c == '-'
}

#[inline]
fn is_bracket(c: char) -> bool
    ensures { result ≡ spell.is_bracket c }
{
    match c {
        '<' | '>' | '(' | ')' | ',' | ':' | ';' | '[' | ']' => true,
        _ => false,
    }
}

#[inline]
fn is_in_quotes(c: char) -> bool
    ensures { result ≡ spell.is_in_quotes c }
{
    !(c == '\'' || is_blank_char(c) || is_bracket(c))
}

// The place after the character of more than one byte that stands at a place, where it is of the class.
#[inline(never)]
fn wide_next(bytes: &[u8], at: usize, class: Class) -> Option<usize>
    requires { at < length bytes.now }
    ensures next { MatchOption result (Stops (is_in class) bytes.now at) (λ next. Run (is_in class) bytes.now at next) }
    ensures within { MatchOption result (Unit {0}) (λ next. (at < next) × (next ≤ length bytes.now)) }
{
    let (c, next) = char_at(bytes, at)?;
    if class.contains(c) { Some(next) } else { None }
}

/// The end of the characters of a class that stand at a place. ASCII is gone through by its bytes.
#[inline]
pub(crate) fn run_end(bytes: &[u8], at: usize, class: Class) -> usize
    requires { at ≤ length bytes.now }
    ensures run { Run (is_in class) bytes.now at result }
    ensures stops { Stops (is_in class) bytes.now result }
    ensures low { at ≤ result }
    ensures within { result ≤ length bytes.now }
{
    let mut end = at;
    while end < bytes.len() {
        let first = bytes[end];
        if first >= 128 {
            let Some(next) = wide_next(bytes, end, class) else {
                return end;
            };
            end = next;
        } else if class.contains_byte(first) {
            end += 1;
        } else {
            return end;
        }
    }
    end
}
