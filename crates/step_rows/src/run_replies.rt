//! Replies about runs of a small program, by hand.
ghost use Rattle.std.specs.Prelude.{◌↔◌, All, IsTrue};
ghost use Rattle.std.specs.Char.{IsAsciiDigit};

use link_program::Linked;
use linked_text::{Rows, first_wrong};
use lists::NoMemory;
use run_report::run_text;
use std::alloc::Global;
use std::test::Fail;

// Its statements that have more than one choice are 1, which divides, 4, which makes an array, and 6.
const PROGRAM: &str =
    r#"class A { } class Main { static void main(java.lang.String[]) { A x; int n; java.lang.Object t, c, o; A[] y; A unset;
x = new A; n = 3 / 2; t = "a b"; c = class "LA;"; y = newarray (A)[1]; o = null; if n == 0 goto bad; return; bad: o = unset; return; } }"#;

// Whether all of the characters are decimal digits.
fn are_digits(characters: &[u8]) -> bool
    ensures { IsTrue result ↔ All IsAsciiDigit characters.now }
{
    characters.iter().all(|c| c.is_ascii_digit())
}

// Whether the text has these lines, with `; ` between two.
fn has_lines(text: &str, wanted: &str) -> bool {
    let mut lines = text.lines();
    for line in wanted.split("; ") {
        if lines.next() != Some(line) {
            return false;
        }
    }
    lines.next().is_none() && text.ends_with('\n')
}

// Whether those are the lines of the reply about a run of a program.
fn is_told(
    alloc: Global,
    linked: &Linked,
    steps: u32,
    digits: &str,
    wanted: &str,
) -> Result<bool, NoMemory> {
    let characters = digits.as_bytes();
    if !are_digits(characters) {
        return Ok(false);
    }
    let text = run_text(alloc, linked, "Main", steps, characters)?;
    match str::from_utf8(&text) {
        Ok(text) => Ok(has_lines(text, wanted)),
        Err(_) => Ok(false),
    }
}

// A row has the steps and the digits of a run, `-` for none, and the lines of the reply behind ` = `.
fn parts(row: &str) -> Option<(u32, &str, &str)> {
    let (asked, wanted) = row.split_once(" = ")?;
    let (steps, digits) = asked.split_once(' ')?;
    Some((steps.parse::<u32>().ok()?, digits, wanted))
}

struct Replies;

impl Rows for Replies {
    fn is_right(&self, alloc: Global, linked: &Linked, row: &str) -> Result<bool, NoMemory> {
        let Some((steps, digits, wanted)) = parts(row) else {
            return Ok(false);
        };
        let digits = if digits == "-" { "" } else { digits };
        is_told(alloc, linked, steps, digits, wanted)
    }
}

const ROWS: &str = r#"# Where it stands.
0 - = run Main; steps 0; end running; at root 0
3 - = run Main; steps 3; end running; at root 3; local text root 0 new java.lang.String; local args root 1 new java.lang.String[]
10 - = run Main; steps 10; end running; at <Main: void main(java.lang.String[])> 6; local x <Main: void main(java.lang.String[])> 0 new A; local n number; local t text "a b"; local c class "LA;"; local o null; local y <Main: void main(java.lang.String[])> 4 new A[]
6 007 = run Main; steps 6; end running; at <Main: void main(java.lang.String[])> 1 raised <Main: void main(java.lang.String[])> 1 raise java.lang.ArithmeticException; local x <Main: void main(java.lang.String[])> 0 new A
# How it has ended.
13 0000 = run Main; steps 13; end ended
1000000 - = run Main; steps 13; end ended
12 000019 = run Main; steps 12; end ill-typed
4 03 = run Main; steps 4; end uncaught root 2 raise java.lang.ArrayStoreException
50 001 = run Main; steps 8; end uncaught <Main: void main(java.lang.String[])> 1 raise java.lang.ArithmeticException"#;

#[test]
fn tells_where_a_run_stands_and_how_it_has_ended(rt: HostRuntime) -> Result<(), Fail> {
    assert_eq!(rt; first_wrong(rt.alloc(), PROGRAM, &Replies, ROWS)?, None);
    Ok(())
}
