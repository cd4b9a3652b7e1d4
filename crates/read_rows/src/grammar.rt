//! Where texts leave the grammar, by hand.
use jim_grammar::{LeadSet, least_refused};
use jim_signs::{Lead, Sign, signs};
use jim_text::lex;
use lists::NoMemory;
use std::alloc::Global;
use std::test::Fail;

// The place at which a text is refused, or 99999 where its bytes are no tokens.
fn place(alloc: Global, text: &str) -> Result<Option<usize>, NoMemory> {
    match signs_of(alloc, text.as_bytes()) {
        Some(found) => least_refused(alloc, &found),
        None => Ok(Some(99999)),
    }
}

fn signs_of(alloc: Global, bytes: &[u8]) -> Option<Vec<Sign>> {
    if bytes.len() > 16777216 {
        return None;
    }
    let tokens = lex(alloc, bytes).ok()?;
    let found = signs(alloc, bytes, &tokens).ok()?;
    Some(found.signs)
}

// A text, a piece so many times, and a last one.
fn repeated(
    alloc: Global,
    first: &str,
    piece: &str,
    count: usize,
    last: &str,
) -> Result<String, NoMemory> {
    let mut all = String::from_str(alloc, first)?;
    for _ in 0..count {
        all.push_str(piece)?;
    }
    all.push_str(last)?;
    Ok(all)
}

// Where that text is refused.
fn place_of(
    alloc: Global,
    first: &str,
    piece: &str,
    count: usize,
    last: &str,
) -> Result<Option<usize>, NoMemory> {
    let text = repeated(alloc, first, piece, count, last)?;
    place(alloc, text.as_str())
}

// The first text that is refused.
fn first_refused(alloc: Global, texts: &[&'static str]) -> Result<Option<&'static str>, NoMemory> {
    for text in texts {
        if place(alloc, text)?.is_some() {
            return Ok(Some(*text));
        }
    }
    Ok(None)
}

// The first text that isn't refused at the place beside it, where this one stands before each.
fn first_misplaced(
    alloc: Global,
    head: &str,
    rows: &[(&'static str, usize)],
) -> Result<Option<&'static str>, NoMemory> {
    for (text, at) in rows {
        if place_of(alloc, head, text, 1, "")? != Some(*at) {
            return Ok(Some(*text));
        }
    }
    Ok(None)
}

const TEXTS: [&str; 14] = [
    "",
    "class A { }",
    "public final class A extends B implements C, D { private static int[] x; }",
    "interface A { int x(B, int[][]); void y() throws C, D; } class A { }",
    "class A { void m() { } native int <init>(); }",
    "class A { void m() { int i, j; B[] b; unknown u; l: nop; m: catch B from l to m with l; } }",
    "class A { void m() { B b; b := @this: B[]; b := @parameter3: int; b := @caughtexception; } }",
    "class A { void m() { b[0] = -1; b.<A: int x> = c; <A: int x> = \"t\"; return null; ret; } }",
    "class A { void m() { x = class \"A\"; x = y cmpl -2L; x = y instanceof A[]; x = (A[]) y; } }",
    "class A { void m() { tableswitch(x) { default: goto a; }; lookupswitch(1) { case -1: goto a; case 2: goto b; default: goto c; }; } }",
    "class A { void m() { virtualinvoke x.<A: void m(B,C)>(y, 1); x = staticinvoke <A: A[] m()>(); } }",
    "class A { void m() { dynamicinvoke; x = dynamicinvoke \"a\" <B: int[] c()> ( ) [ ] := class @this; } }",
    "class A { void m() { x = newmultiarray (A[]) [1][][y]; x = newarray (A[]) [2]; throw x; } }",
    "class A { void m() { if x >= null goto l; x = neg 1.5; x = lengthof y; entermonitor x; breakpoint; } }",
];

#[test]
fn texts(rt: HostRuntime) -> Result<(), Fail> {
    assert_eq!(rt; first_refused(rt.alloc(), &TEXTS)?, None);
    Ok(())
}

const CLASSES_AND_MEMBERS: [(&str, usize); 14] = [
    ("class", 1),
    ("class A {", 3),
    ("class A { } x", 4),
    ("public { }", 1),
    ("class A extends { }", 3),
    ("class A implements B, { }", 5),
    ("class A implements B extends C { }", 4),
    ("class A { int x }", 5),
    ("class A { static void m(B [", 9),
    ("class A { void x; }", 5),
    ("class A { unknown x; }", 3),
    ("class A { int m(B,) ; }", 8),
    ("class A { int m() throws { }", 8),
    ("class A { int m(); static class B { } }", 9),
];

#[test]
fn classes_and_members(rt: HostRuntime) -> Result<(), Fail> {
    assert_eq!(rt;
        first_misplaced(rt.alloc(), "", &CLASSES_AND_MEMBERS)?,
        None
    );
    Ok(())
}

// The tokens of the body begin at 8.
const BODIES: [(&str, usize); 15] = [
    ("x )", 9),
    ("x y", 10),
    ("x [ ;", 10),
    ("x [ ] =", 11),
    ("nop; x y", 11),
    ("nop; x [ ]", 12),
    ("int x; nop; int y;", 13),
    ("x = y z", 11),
    ("x := y", 10),
    ("r.<A: int x>=5;", 15),
    ("if x goto l;", 10),
    ("x = newarray (A) [];", 15),
    ("dynamicinvoke a {", 10),
    ("dynamicinvoke a", 10),
    ("catch A from a to b with c; nop;", 17),
];

#[test]
fn bodies(rt: HostRuntime) -> Result<(), Fail> {
    assert_eq!(rt;
        first_misplaced(rt.alloc(), "class A { void m() { ", &BODIES)?,
        None
    );
    Ok(())
}

const SWITCHES: [(&str, usize); 5] = [
    ("case 1 goto a;", 15),
    ("case x", 14),
    ("default: goto a; default: goto b;", 18),
    ("default: goto a; case 1: goto b;", 18),
    ("};", 13),
];

#[test]
fn switches(rt: HostRuntime) -> Result<(), Fail> {
    assert_eq!(rt;
        first_misplaced(
            rt.alloc(),
            "class A { void m() { tableswitch(x) { ",
            &SWITCHES
        )?,
        None
    );
    Ok(())
}

const MEMBER: &str = "class A { int";

const LOCAL: &str = "class A { void m() { B";

const MADE: &str = "class A { void m() { x = newmultiarray (int";

const LENGTHS: &str = "class A { void m() { x = newmultiarray (int)";

// So many pairs of brackets behind a type: in a member, in a local that is declared, in what `newmultiarray` makes, and as its lengths.
const LIMITS: [(&str, usize, &str, Option<usize>); 11] = [
    (MEMBER, 255, " x; }", None),
    (MEMBER, 256, " x; }", Some(514)),
    (LOCAL, 255, " x; } }", None),
    (LOCAL, 256, " x; } }", Some(519)),
    (MADE, 254, ")[]; } }", None),
    (MADE, 254, ")[][]; } }", Some(524)),
    (MADE, 255, ")[]; } }", Some(521)),
    (MADE, 100, ")[]; } }", None),
    (LENGTHS, 0, ";", Some(14)),
    (LENGTHS, 255, "; } }", None),
    (LENGTHS, 256, "; } }", Some(524)),
];

// The first row that isn't so.
fn first_beyond(alloc: Global) -> Result<Option<(&'static str, usize)>, NoMemory> {
    for (first, count, last, at) in &LIMITS {
        if place_of(alloc, first, "[]", *count, last)? != *at {
            return Ok(Some((*first, *count)));
        }
    }
    Ok(None)
}

#[test]
fn limits(rt: HostRuntime) -> Result<(), Fail> {
    assert_eq!(rt; first_beyond(rt.alloc())?, None);
    Ok(())
}

#[test]
fn long_text(rt: HostRuntime) -> Result<(), Fail> {
    let head = "class A { void m() { ";
    let open = place_of(rt.alloc(), head, "x[y] = z;", 20000, "")?;
    assert_eq!(rt; open, Some(140008));
    let whole = place_of(rt.alloc(), head, "x[y] = z;", 20000, "} }")?;
    assert_eq!(rt; whole, None);
    Ok(())
}

// What stands before a type of 255 pairs, each time.
const BEFORE_TYPES: [&str; 25] = [
    "class A { ",
    "m(",
    ",",
    ") { ",
    "l; x := @this: ",
    "; x := @parameter0: ",
    "; x = (",
    ") y; x = y instanceof ",
    "; x = newarray (",
    ") [1]; x = y.<A: ",
    "f>; x = <A: ",
    "f>; y.<A: ",
    "f> = x; <A: ",
    "f> = x; staticinvoke <A: ",
    "m(",
    ",",
    ")>(); x = staticinvoke <A: ",
    "m(",
    ",",
    ")>(); virtualinvoke y.<A: ",
    "m(",
    ",",
    ")>(); x = virtualinvoke y.<A: ",
    "m(",
    ",",
];

fn put_types(text: &mut String) -> Result<(), NoMemory> {
    for piece in BEFORE_TYPES {
        text.push_str(piece)?;
        text.push_str("int")?;
        for _ in 0..255 {
            text.push_str("[]")?;
        }
        text.push(' ')?;
    }
    text.push_str(")>();")
}

// Where all these types are refused with this behind them.
fn place_behind_types(alloc: Global, last: &str) -> Result<Option<usize>, NoMemory> {
    let mut text = String::new(alloc);
    put_types(&mut text)?;
    text.push_str(last)?;
    place(alloc, text.as_str())
}

// Types of 255 pairs in so many places that there is no room for each set of stacks.
#[test]
fn more_sets_than_are_kept(rt: HostRuntime) -> Result<(), Fail> {
    let open = place_behind_types(rt.alloc(), "")?;
    assert_eq!(rt; open, Some(12907));
    let whole = place_behind_types(rt.alloc(), "} }")?;
    assert_eq!(rt; whole, None);
    let wrong = place_behind_types(rt.alloc(), "nop; nop )")?;
    assert_eq!(rt; wrong, Some(12910));
    Ok(())
}

// The class of no token stands nowhere, not even where any token may.
#[test]
fn no_token(rt: HostRuntime) -> Result<(), Fail> {
    assert!(rt; !LeadSet::NotEnds.contains(Lead::Other));
    assert!(rt; LeadSet::NotEnds.contains(Lead::Dot));
    let other = [Sign {
        lead: Lead::Other,
        text: 0,
    }];
    assert_eq!(rt; least_refused(rt.alloc(), &other)?, Some(0));
    Ok(())
}
