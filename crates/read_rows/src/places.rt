//! Where texts are refused that are no programs.
ghost use Rattle.std.specs.Prelude.{◌^◌, ◌<◌, ◌≤◌, length};
ghost use Rattle.jim_text.specs.Lexes.{Lexes};

use jim_parse::{ParseError, ReadError, parse, read};
use jim_text::{Token, lex};
use lists::NoMemory;
use std::alloc::Global;
use std::test::Fail;

// The place at which a text is refused, or -1 where it is a program.
fn place(alloc: Global, text: &str) -> i64 {
    let bytes = text.as_bytes();
    if bytes.len() > 16_777_216 {
        return -2;
    }
    let place = match lex(alloc, bytes) {
        Ok(tokens) => place_of(alloc, bytes, &tokens),
        Err(_) => -3,
    };
    if place_read(alloc, bytes) != place {
        return -5;
    }
    place
}

// The same where the text is read in one pass.
fn place_read(alloc: Global, bytes: &[u8]) -> i64
    requires { length bytes.now ≤ 16777216 }
{
    match read(alloc, bytes) {
        Ok(_) => -1,
        Err(ReadError::NotJimple { at }) => i64::from(at),
        Err(ReadError::BadText { at: _ }) => -3,
        Err(ReadError::NoMemory) => -4,
    }
}

fn place_of(alloc: Global, bytes: &[u8], tokens: &[Token]) -> i64
    requires few { length tokens.now < 2 ^ 32 }
    requires lexed { Lexes bytes.now tokens.now }
{
    match parse(alloc, bytes, tokens) {
        Ok(_) => -1,
        Err(ParseError::NotJimple { at }) => i64::from(at),
        Err(ParseError::NoMemory) => -4,
    }
}

// The first text that isn't refused at the place beside it.
fn first_misplaced(alloc: Global, rows: &[(&'static str, i64)]) -> Option<&'static str> {
    for (text, at) in rows {
        if place(alloc, text) != *at {
            return Some(*text);
        }
    }
    None
}

// Where a class with a method of this body is refused.
fn place_of_body(alloc: Global, body: &str) -> Result<i64, NoMemory> {
    let text = format!(in alloc; "class A {{ void m() {{ {body} }} }}")?;
    Ok(place(alloc, text.as_str()))
}

// The same of bodies.
fn first_misplaced_body(
    alloc: Global,
    rows: &[(&'static str, i64)],
) -> Result<Option<&'static str>, NoMemory> {
    for (body, at) in rows {
        if place_of_body(alloc, body)? != *at {
            return Ok(Some(*body));
        }
    }
    Ok(None)
}

const CLASSES: [(&str, i64); 13] = [
    ("", -1),
    ("class A { \\ }", -3),
    ("class A { }", -1),
    (
        "public final interface 'A' extends B implements C, D { }",
        -1,
    ),
    (
        "class A { int x; static java.lang.Object[][] y; native void n(); }",
        -1,
    ),
    ("class A { abstract int f(int, long[]) throws E, F; }", -1),
    ("class A { int x }", 5),
    ("class A extends { }", 3),
    ("class A implements B, { }", 5),
    ("class Main { static void main(java.lang.String[", 9),
    ("class A { void x; }", 5),
    ("class A { } x", 4),
    ("class", 1),
];

#[test]
fn classes(rt: HostRuntime) {
    assert_eq!(rt; first_misplaced(rt.alloc(), &CLASSES), None);
}

const BODIES: [(&str, i64); 14] = [
    (
        "double d; float f; long 'from'; d = 1.0E10; d = -1.0E-5F; f = #NaNF; 'from' = 5L; return;",
        -1,
    ),
    ("a[1] = b; x = a[1]; y = x.<A: int f>; <A: int s> = y;", -1),
    ("a[] x; a[1] = b;", -1),
    (
        "l: if a == 1 goto l; tableswitch(a) { case -1: goto l; default: goto l; };",
        -1,
    ),
    (
        "dynamicinvoke anything \"at\" all + - ; x = (A) y; x = neg y; x = y - 1;",
        -1,
    ),
    ("nop; catch E from a to b with c;", -1),
    ("a b c;", 10),
    ("a[ = b;", 10),
    ("a[1] b;", 12),
    ("catch E from a to b with c; nop;", 17),
    ("lookupswitch(a) { default: goto l; default: goto l; };", 18),
    ("tableswitch(a) { case 1 goto l; default: goto l; };", 15),
    ("dynamicinvoke { ;", 9),
    ("x = a == 1 == 2;", 13),
];

#[test]
fn bodies(rt: HostRuntime) -> Result<(), Fail> {
    assert_eq!(rt; first_misplaced_body(rt.alloc(), &BODIES)?, None);
    Ok(())
}

// A text, then a piece so many times, then a text.
fn repeated(
    alloc: Global,
    head: &str,
    piece: &str,
    count: u32,
    tail: &str,
) -> Result<String, NoMemory> {
    let mut text = String::from_str(alloc, head)?;
    for _ in 0..count {
        text.push_str(piece)?;
    }
    text.push_str(tail)?;
    Ok(text)
}

const MADE: &str = "class A { void m() { x = newmultiarray (int";

const LIMITS: [(&str, &str, u32, &str, i64); 10] = [
    ("class A { int", "[]", 255, " x; }", -1),
    ("class A { int", "[]", 256, " x; }", 514),
    (MADE, "[]", 254, ")[1]; } }", -1),
    (MADE, "[]", 255, ")[1]; } }", 521),
    (
        "class A { void m() { x = newmultiarray (int)",
        "[]",
        255,
        "; } }",
        -1,
    ),
    (
        "class A { void m() { x = newmultiarray (int)",
        "[]",
        256,
        "; } }",
        524,
    ),
    ("class A { void m() { ", "nop; ", 20_000, "} }", -1),
    ("class A { ", "int x; ", 20_000, "}", -1),
    ("", "class A { } ", 20_000, "", -1),
    ("class A { void m() { x = ", "( ", 20_000, "} }", 11),
];

fn place_of_repeated(
    alloc: Global,
    head: &str,
    piece: &str,
    count: u32,
    tail: &str,
) -> Result<i64, NoMemory> {
    let text = repeated(alloc, head, piece, count, tail)?;
    Ok(place(alloc, text.as_str()))
}

// The first row that isn't so.
fn first_beyond(alloc: Global) -> Result<Option<(&'static str, u32)>, NoMemory> {
    for (head, piece, count, tail, at) in &LIMITS {
        if place_of_repeated(alloc, head, piece, *count, tail)? != *at {
            return Ok(Some((*head, *count)));
        }
    }
    Ok(None)
}

#[test]
fn limits(rt: HostRuntime) -> Result<(), Fail> {
    assert_eq!(rt; first_beyond(rt.alloc())?, None);
    Ok(())
}
