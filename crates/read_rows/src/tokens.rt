//! The tokens of texts, or where no token begins.
use jim_text::{
    Ahead, Kind, Lead, LexError, Lexeme, NoMemory, Token, contents, has_one_list, has_quote, lex,
    next_token, spells_alone,
};
use std::alloc::{AllocError, Global};
use std::test::Fail;

// The letter that stands for a kind in the tables below.
fn letter(kind: Kind) -> &'static str {
    match kind {
        Kind::Word => "W",
        Kind::Name => "N",
        Kind::Number => "I",
        Kind::Text => "T",
        Kind::At => "A",
        Kind::Mark => "M",
    }
}

// Each token as its kind's letter with its first place and the place after it.
fn put_tokens(text: &mut String, tokens: &[Token]) -> Result<(), NoMemory> {
    for token in tokens {
        write!(text, "{}{}-{} ", letter(token.kind), token.from, token.to)?;
    }
    Ok(())
}

// The tokens of bytes, or the place of the error behind a `!`.
fn put_lexed(alloc: Global, text: &mut String, bytes: &[u8]) -> Result<(), NoMemory> {
    if bytes.len() > 16777216 {
        return Ok(());
    }
    match lex(alloc, bytes) {
        Ok(tokens) => put_tokens(text, &tokens),
        Err(LexError::BadText { at }) => write!(text, "!{at}"),
        Err(LexError::NoMemory) => Err(AllocError),
    }
}

fn is_lexed(alloc: Global, bytes: &[u8], wanted: &str) -> Result<bool, NoMemory> {
    let mut text = String::new(alloc);
    put_lexed(alloc, &mut text, bytes)?;
    Ok(text.as_str() == wanted)
}

// The first text whose tokens aren't those that stand beside it.
fn first_wrong(
    alloc: Global,
    rows: &[(&'static [u8], &'static str)],
) -> Result<Option<&'static [u8]>, NoMemory> {
    for (text, wanted) in rows {
        if !is_lexed(alloc, text, wanted)? {
            return Ok(Some(*text));
        }
    }
    Ok(None)
}

const BLANKS_AND_WORDS: [(&[u8], &str); 14] = [
    (b"", ""),
    (b" \t\n\r\x0c", ""),
    (b"\x0b", "!0"),
    (b"a\x00", "!1"),
    (b"class A", "W0-5 N6-7 "),
    (b"ifs if", "N0-3 W4-6 "),
    (b"null_type null_typ", "W0-9 N10-18 "),
    (b"Class", "N0-5 "),
    (b"goto1", "N0-5 "),
    (b"int[]", "W0-3 M3-4 M4-5 "),
    (b"'class'", "N0-7 "),
    (b"class.A", "N0-7 "),
    (b"A.class", "N0-7 "),
    (b"'int'.int", "N0-9 "),
];

#[test]
fn blanks_and_words(rt: HostRuntime) -> Result<(), Fail> {
    assert_eq!(rt; first_wrong(rt.alloc(), &BLANKS_AND_WORDS)?, None);
    Ok(())
}

const NAMES: [(&[u8], &str); 13] = [
    (b"a-b", "N0-3 "),
    (b"a-1", "N0-3 "),
    (b"a#b$c_d9", "N0-8 "),
    (b"$r0 _", "N0-3 N4-5 "),
    (b"9a", "I0-1 N1-2 "),
    (b"a..b", "N0-1 M1-2 M2-3 N3-4 "),
    (b"a.1", "N0-1 M1-2 I2-3 "),
    (b"a.", "N0-1 M1-2 "),
    (b"<init>", "N0-6 "),
    (b"<init>a", "N0-6 N6-7 "),
    (b"<clinit>()", "N0-8 M8-9 M9-10 "),
    (b"<init ", "M0-1 N1-5 "),
    (b"a.<init>", "N0-1 M1-2 N2-8 "),
];

#[test]
fn names(rt: HostRuntime) -> Result<(), Fail> {
    assert_eq!(rt; first_wrong(rt.alloc(), &NAMES)?, None);
    Ok(())
}

const QUOTED_COMPONENTS: [(&[u8], &str); 14] = [
    (b"'a'.'b'", "N0-7 "),
    (b"a.'b c'", "!2"),
    (b"a.'b'.", "N0-5 M5-6 "),
    (b"'a.b'c", "N0-5 N5-6 "),
    (b"'a''b'", "N0-3 N3-6 "),
    (b"'", "!0"),
    (b"''", "!0"),
    (b"a.''", "!2"),
    (b"'a", "!0"),
    (b"'<init>'", "!0"),
    (b"'a\"#-\\'", "N0-7 "),
    (b"'a/*b*/'", "N0-8 "),
    (b"'a[]'", "!0"),
    (b"'1'", "N0-3 "),
];

#[test]
fn quoted_components(rt: HostRuntime) -> Result<(), Fail> {
    assert_eq!(rt; first_wrong(rt.alloc(), &QUOTED_COMPONENTS)?, None);
    Ok(())
}

const NUMBERS: [(&[u8], &str); 13] = [
    (b"12L", "I0-3 "),
    (b"12l", "I0-2 N2-3 "),
    (b"-1", "M0-1 I1-2 "),
    (b"1.", "I0-1 M1-2 "),
    (b".5", "M0-1 I1-2 "),
    (b"1.5F", "I0-4 "),
    (b"1f", "I0-1 N1-2 "),
    (b"1.0E", "I0-3 N3-4 "),
    (b"1.0E+f", "I0-3 N3-4 M4-5 N5-6 "),
    (b"1.0E+5f", "I0-7 "),
    (b"1.0e-5L", "I0-6 N6-7 "),
    (b"1E5", "I0-1 N1-3 "),
    (b"1.5.2", "I0-3 M3-4 I4-5 "),
];

#[test]
fn numbers(rt: HostRuntime) -> Result<(), Fail> {
    assert_eq!(rt; first_wrong(rt.alloc(), &NUMBERS)?, None);
    Ok(())
}

const NUMBERS_WITH_SIGNS: [(&[u8], &str); 11] = [
    (b"#NaNF", "I0-5 "),
    (b"#NaNa", "I0-4 N4-5 "),
    (b"#Infinity", "I0-9 "),
    (b"#-Infinityf", "I0-11 "),
    (b"#Infinit", "!0"),
    (b"#+Infinity", "!0"),
    (b"0x", "I0-1 N1-2 "),
    (b"0x1gL", "I0-3 N3-5 "),
    (b"0xfFL", "I0-5 "),
    (b"0X1", "I0-1 N1-3 "),
    (b"00x1", "I0-2 N2-4 "),
];

#[test]
fn numbers_with_signs(rt: HostRuntime) -> Result<(), Fail> {
    assert_eq!(rt; first_wrong(rt.alloc(), &NUMBERS_WITH_SIGNS)?, None);
    Ok(())
}

const LIMITS: [(&[u8], &str); 10] = [
    (b"123456789012345678901234567890123456789", "I0-38 I38-39 "),
    (b"12345678901234567890123456789012345678L", "I0-39 "),
    (b"123456789012345678901234567890123456789L", "I0-38 I38-40 "),
    (b"0x12345678901234567890123456789012L", "I0-35 "),
    (b"0x123456789012345678901234567890123", "I0-34 I34-35 "),
    (
        b"1.123456789012345678901234567890123456789",
        "I0-40 I40-41 ",
    ),
    (
        b"1.5e-123456789012345678901234567890123456789",
        "I0-43 I43-44 ",
    ),
    (
        b"123456789012345678901234567890123456789.5",
        "I0-38 I38-41 ",
    ),
    (b"@parameter12345", "A0-15 "),
    (b"@parameter123456", "A0-15 I15-16 "),
];

#[test]
fn limits(rt: HostRuntime) -> Result<(), Fail> {
    assert_eq!(rt; first_wrong(rt.alloc(), &LIMITS)?, None);
    Ok(())
}

const AT_WORDS: [(&[u8], &str); 9] = [
    (b"@this", "A0-5 "),
    (b"@thisx", "A0-5 N5-6 "),
    (b"@thi", "!0"),
    (b"@caughtexception", "A0-16 "),
    (b"@caughtexceptio", "!0"),
    (b"@parameter", "!0"),
    (b"@parameterx", "!0"),
    (b"@", "!0"),
    (b"@ this", "!0"),
];

#[test]
fn at_words(rt: HostRuntime) -> Result<(), Fail> {
    assert_eq!(rt; first_wrong(rt.alloc(), &AT_WORDS)?, None);
    Ok(())
}

const MARKS: [(&[u8], &str); 13] = [
    (b":=:=", "M0-2 M2-4 "),
    (b": =", "M0-1 M2-3 "),
    (b"::=", "M0-1 M1-3 "),
    (b">>>=", "M0-3 M3-4 "),
    (b">>>>", "M0-3 M3-4 "),
    (b">>=", "M0-2 M2-3 "),
    (b"<<=", "M0-2 M2-3 "),
    (b"===", "M0-2 M2-3 "),
    (b"<=>=", "M0-2 M2-4 "),
    (b"!=!", "!2"),
    (b"f>= 5", "N0-1 M1-3 I4-5 "),
    (b"?", "!0"),
    (b"a~b", "!1"),
];

#[test]
fn marks(rt: HostRuntime) -> Result<(), Fail> {
    assert_eq!(rt; first_wrong(rt.alloc(), &MARKS)?, None);
    Ok(())
}

const SINGLE_MARKS_AND_SLASHES: [(&[u8], &str); 6] = [
    (
        b"{}()[];,:.=<>+-*%&^|",
        "M0-1 M1-2 M2-3 M3-4 M4-5 M5-6 M6-7 M7-8 M8-9 M9-10 M10-11 M11-12 M12-13 M13-14 M14-15 M15-16 M16-17 M17-18 M18-19 M19-20 ",
    ),
    (b"/", "M0-1 "),
    (b"a/b", "N0-1 M1-2 N2-3 "),
    (b"/\xff", "!1"),
    (b"/ /", "M0-1 M2-3 "),
    (b"&&", "M0-1 M1-2 "),
];

#[test]
fn single_marks_and_slashes(rt: HostRuntime) -> Result<(), Fail> {
    assert_eq!(rt; first_wrong(rt.alloc(), &SINGLE_MARKS_AND_SLASHES)?, None);
    Ok(())
}

const COMMENTS: [(&[u8], &str); 14] = [
    (b"a//b\nc", "N0-1 N5-6 "),
    (b"a//b", "N0-1 "),
    (b"//\r1", ""),
    (b"//\xff", "!0"),
    (b"//\n\xff", "!3"),
    (b"/*/", "!0"),
    (b"/**/a", "N4-5 "),
    (b"/***/a", "N5-6 "),
    (b"/*\"*/a/*", "!6"),
    (b"/*\xff*/", "!0"),
    (b"/**/\xff", "!4"),
    (b"/*\xc3\xa9*/1", "I6-7 "),
    (b"/*//*/1", "I6-7 "),
    (b"//*/1", ""),
];

#[test]
fn comments(rt: HostRuntime) -> Result<(), Fail> {
    assert_eq!(rt; first_wrong(rt.alloc(), &COMMENTS)?, None);
    Ok(())
}

const TEXTS: [(&[u8], &str); 14] = [
    (b"\"\"", "T0-2 "),
    (b"\"//\"", "T0-4 "),
    (b"\"/*\" */", "T0-4 M5-6 M6-7 "),
    (b"\"\"\"", "!2"),
    (b"\"\\\"\"", "T0-4 "),
    (b"\"\\", "!0"),
    (b"\"\\\"", "!0"),
    (b"\"\\\xc3\xa9\"", "T0-5 "),
    (b"\"\\\n\"", "!0"),
    (b"\"\n\"", "!0"),
    (b"\"\r\"", "!0"),
    (b"\"\xff\"", "!0"),
    (b"\"\"\xff", "!2"),
    (b"\"'\t\x00\"", "T0-5 "),
];

#[test]
fn texts(rt: HostRuntime) -> Result<(), Fail> {
    assert_eq!(rt; first_wrong(rt.alloc(), &TEXTS)?, None);
    Ok(())
}

const CHARACTERS: [(&[u8], &str); 14] = [
    (b"\xc4\xb0b", "N0-3 "),
    (b"b\xc4\xb0", "N0-3 "),
    (b"\xc0\x80", "!0"),
    (b"\xc1\xa1", "!0"),
    (b"\xed\xa0\x80", "!0"),
    (b"\xf4\x90\x80\x80", "!0"),
    (b"a\xe2\x82", "!1"),
    (b"a\xe2\x82\xac", "!1"),
    (b"'\xe2\x82\xac'", "N0-5 "),
    (b"'\xf0\x9f\x98\x80'", "N0-6 "),
    (b"'\xe2\x82'", "!0"),
    (b"\xf0\x9d\x92\x9cx", "N0-5 "),
    (b"\xc2\xb7", "!0"),
    (b"a\xc2\xb7", "N0-3 "),
];

#[test]
fn characters(rt: HostRuntime) -> Result<(), Fail> {
    assert_eq!(rt; first_wrong(rt.alloc(), &CHARACTERS)?, None);
    Ok(())
}

#[test]
fn one_by_one(rt: HostRuntime) -> Result<(), Fail> {
    let text = b"/**/ if x \\";
    let word = Lexeme {
        token: Token {
            kind: Kind::Word,
            from: 5,
            to: 7,
        },
        lead: Lead::If,
    };
    assert_eq!(rt; next_token(text, 0), Ahead::Token(word));
    assert_eq!(rt; next_token(text, 9), Ahead::Nothing { at: 10 });
    assert_eq!(rt; next_token(text, 11), Ahead::End);
    Ok(())
}

// Names, whether a part of each is quoted, and what it says.
const CONTENTS: [(&[u8], bool, &[u8]); 7] = [
    (b"A", false, b"A"),
    (b"'A'", true, b"A"),
    (b"a.b", false, b"a.b"),
    (b"'a'.'b'", true, b"a.b"),
    (b"'a.b'.c", true, b"a.b.c"),
    (b"<init>", false, b"<init>"),
    (b"'\xc4\xb0'", true, b"\xc4\xb0"),
];

fn says(alloc: Global, text: &[u8], wanted: &[u8]) -> Result<bool, NoMemory> {
    let found = contents(alloc, text)?;
    Ok(found.as_slice() == wanted)
}

fn first_misread(alloc: Global) -> Result<Option<&'static [u8]>, NoMemory> {
    for (text, quoted, wanted) in &CONTENTS {
        if has_quote(text) != *quoted || !says(alloc, text, wanted)? {
            return Ok(Some(*text));
        }
    }
    Ok(None)
}

#[test]
fn contents_of_names(rt: HostRuntime) -> Result<(), Fail> {
    assert_eq!(rt; first_misread(rt.alloc())?, None);
    Ok(())
}

// Texts that could be cut in more than one way: each has the one list of its longest tokens. What stands behind a token changes its spelling nowhere but at
// `/`.
const CUTS: [(&[u8], &str); 8] = [
    (b">>>>=", "M0-3 M3-5 "),
    (b":==", "M0-2 M2-3 "),
    (b"<<=", "M0-2 M2-3 "),
    (b"1LL", "I0-2 N2-3 "),
    (b"a/b", "N0-1 M1-2 N2-3 "),
    (b"a/ /b", "N0-1 M1-2 M3-4 N4-5 "),
    (b"a/**/b", "N0-1 N5-6 "),
    (b"a/*b", "!1"),
];

#[test]
fn texts_are_cut_in_one_way(rt: HostRuntime) -> Result<(), Fail> {
    has_one_list();
    spells_alone();
    assert_eq!(rt; first_wrong(rt.alloc(), &CUTS)?, None);
    Ok(())
}
