//! Runs of small programs, by hand.
ghost use Rattle.std.specs.Prelude.{◌<◌, IfOk, IfSome, length};
ghost use Rattle.step_rules.specs.Shapes.{FitsValue, IsKnown};

use jim_step::{Machine, start};
use link_program::Linked;
use link_sites::{Place, Site};
use linked_text::{Rows, first_wrong};
use lists::NoMemory;
use std::alloc::Global;
use std::test::Fail;
use step_rules::{Moved, Slot, Value};

// A place by the number of its method and its index.
fn place_text(alloc: Global, place: Place) -> Result<String, NoMemory> {
    let flight = if place.raised { "!" } else { "" };
    format!(in alloc; "{}.{}{}", place.method, place.index, flight)
}

// A site, by its place or its number.
fn site_text(alloc: Global, site: Site) -> Result<String, NoMemory> {
    match site {
        Site::New(place) => {
            let text = place_text(alloc, place)?;
            format!(in alloc; "{} new", text.as_str())
        }
        Site::Nested(place, level) => {
            let text = place_text(alloc, place)?;
            format!(in alloc; "{} level {}", text.as_str(), level)
        }
        Site::Raised(place, kind) => {
            let text = place_text(alloc, place)?;
            format!(in alloc; "{} raise {}", text.as_str(), kind)
        }
        Site::Text(number) => format!(in alloc; "text {}", number),
        Site::Class(number) => format!(in alloc; "class {}", number),
    }
}

// A value, an object by its site.
fn value_text(alloc: Global, machine: &Machine<'_>, value: Value) -> Result<String, NoMemory>
    requires { FitsValue (length machine.now.state.heap) value }
{
    match value {
        Value::Null => String::from_str(alloc, "null"),
        Value::Number => String::from_str(alloc, "number"),
        Value::Object(object) => site_text(alloc, machine.site(object)),
    }
}

// Where the top frame stands, and what its locals hold that are set.
fn top_text(alloc: Global, machine: &Machine<'_>) -> Result<String, NoMemory> {
    let count = machine.frames();
    if count == 0 {
        return String::from_str(alloc, "nowhere");
    }
    let place = machine.place(count - 1);
    let mut text = place_text(alloc, place)?;
    for local in 0..16 {
        if let Some(value) = machine.value_at(count - 1, Slot::Local(local)) {
            let held = value_text(alloc, machine, value)?;
            text.push_str("; ")?;
            text.push_str(held.as_str())?;
        }
    }
    Ok(text)
}

// The choice of a digit, where the step has one with this number, else the last one; 0 where the digits have come to their end.
fn choice_of(digits: &[u8], at: usize, count: u32) -> u32
    requires { 0 < count }
    ensures { result < count }
{
    let Some(digit) = digits.get(at) else {
        return 0;
    };
    let number = digit.saturating_sub(48) as u32;
    if number < count { number } else { count - 1 }
}

// Makes a step, by the next digit where it has several choices; none where the run has ended.
fn turn(
    alloc: Global,
    machine: &mut Machine<'_>,
    digits: &[u8],
    at: &mut usize,
) -> Result<Option<Moved>, NoMemory>
    ensures { IfOk result (λ moved. IfSome moved (IsKnown (length machine.new.state.heap))) }
{
    let count = machine.choices();
    if count == 0 {
        return Ok(None);
    }
    let choice = choice_of(digits, *at, count);
    if count > 1 {
        *at = at.saturating_add(1);
    }
    let moved = machine.step(alloc, choice)?;
    Ok(Some(moved))
}

// The run of so many steps: how many were made, and how it ended or where it stands. The digits are the choices of the steps that have several.
fn run(
    alloc: Global,
    machine: &mut Machine<'_>,
    steps: u32,
    digits: &[u8],
) -> Result<String, NoMemory> {
    let mut at: usize = 0;
    for made in 0..steps {
        match turn(alloc, machine, digits, &mut at)? {
            None => return format!(in alloc; "{} over", made),
            Some(Moved::Went) => {}
            Some(Moved::Ended) => return format!(in alloc; "{} ended", made + 1),
            Some(Moved::IllTyped) => return format!(in alloc; "{} ill-typed", made + 1),
            Some(Moved::Uncaught(object)) => {
                let site = site_text(alloc, machine.site(object))?;
                return format!(in alloc; "{} uncaught {}", made + 1, site.as_str());
            }
        }
    }
    let text = top_text(alloc, machine)?;
    format!(in alloc; "{} at {}", steps, text.as_str())
}

// The run of a linked program.
fn run_linked(
    alloc: Global,
    linked: &Linked,
    steps: u32,
    digits: &[u8],
) -> Result<String, NoMemory> {
    let mut machine = start(alloc, linked)?;
    run(alloc, &mut machine, steps, digits)
}

// Whether that is told: all of it, or how it begins and ends, with two dots between.
fn agrees(told: &str, wanted: &str) -> bool {
    match wanted.split_once(" .. ") {
        Some((first, last)) => told.starts_with(first) && told.ends_with(last),
        None => told == wanted,
    }
}

// A row has the steps and the digits of a run, `-` for none, and what is told of it behind ` = `.
fn parts(row: &str) -> Option<(u32, &str, &str)> {
    let (asked, wanted) = row.split_once(" = ")?;
    let (steps, digits) = asked.split_once(' ')?;
    Some((steps.parse::<u32>().ok()?, digits, wanted))
}

struct Runs;

impl Rows for Runs {
    fn is_right(&self, alloc: Global, linked: &Linked, row: &str) -> Result<bool, NoMemory> {
        let Some((steps, digits, wanted)) = parts(row) else {
            return Ok(false);
        };
        let digits = if digits == "-" { "" } else { digits };
        let told = run_linked(alloc, linked, steps, digits.as_bytes())?;
        Ok(agrees(told.as_str(), wanted))
    }
}

const LOOP: &str =
    "class A { } class Main { static void main(java.lang.String[]) { A x, y; x = new A; y = x; label1: if 0 == 1 goto label2; x = new A; goto label1; \
label2: return; } }";

// A loop with an allocation: after one turn both locals hold the first object, at the end nothing is left; an exception may leave the root.
const OF_LOOP: &str = "7 - = 7 at 0.3; 0.0 new; 0.0 new
100 001 = 9 ended
100 1 = 3 uncaught 1.1 raise 3";

const CAUGHT: &str =
    "class Main { static void main(java.lang.String[]) { java.lang.Object a; java.lang.Throwable t; label1: a = null; \
virtualinvoke a.<java.lang.Object: int hashCode()>(); label2: return; label3: t := @caughtexception; return; \
catch java.lang.NullPointerException from label1 to label2 with label3; } }";

// A call on null raises an exception, which a handler catches.
const OF_CAUGHT: &str = "6 - = 6 at 0.1!; null
8 - = 8 at 0.4; null; 0.1 raise 0
100 - = 10 ended";

const KINDS: &str =
    "class A { java.lang.Object f; static java.lang.Object s; java.lang.Object id(java.lang.Object) { A r; java.lang.Object p; r := @this: A; \
p := @parameter0: java.lang.Object; return p; } } class Main { static void main(java.lang.String[]) { A a; java.lang.Object b, c, d, e; \
java.lang.Object[] g; java.lang.Throwable t; a = new A; a.<A: java.lang.Object f> = \"k\"; b = a.<A: java.lang.Object f>; \
g = newarray (java.lang.Object)[3]; g[0] = b; c = g[1]; <A: java.lang.Object s> = a; d = <A: java.lang.Object s>; e = (A) d; \
b = virtualinvoke a.<A: java.lang.Object id(java.lang.Object)>(c); e = 1 + 2; entermonitor a; e = lengthof g; \
tableswitch(0) { case 0: goto label1; default: goto label2; }; label1: nop; label2: t = new java.lang.NullPointerException; throw t; \
label3: t := @caughtexception; return; catch java.lang.Throwable from label2 to label3 with label3; } }";

// Each kind of statement: fields, elements, static fields, casts, calls, numbers, monitors, jumps, throws and handlers. Then the exceptions that
// statements raise by themselves, which leave a method that doesn't catch them.
const OF_KINDS: &str = "13 00001 = 13 at 1.9;  .. 1.0 new; text 0; text 0; 1.0 new; 1.0 new; 1.3 new
14 00001 = 14 at 0.0
16 00001 = 16 at 0.2; 1.0 new; text 0
24 00001 = 24 at 1.16!; 1.0 new; text 0; text 0; 1.0 new; number; 1.3 new; 1.15 new
27 00001 = 27 at 2.4; 2.0 new; 2.1 new
100 00001 = 28 ended
100 000011 = 15 uncaught 1.8 raise 4
100 0002 = 11 uncaught 1.4 raise 2
100 00009 = 12 uncaught 1.5 raise 1";

const LEVELS: &str =
    "class Main { static void main(java.lang.String[]) { java.lang.Object[][] a; java.lang.Object[] b, c; \
a = newmultiarray (java.lang.Object)[2][3]; b = a[0]; c = b[0]; c = a[0]; return; } }";

// An array within an array comes to be when it is loaded, and is then an element; the last level has none.
const OF_LEVELS: &str = "6 0002 = 6 at 0.2; 0.0 new; 0.0 level 1
7 0002 = 7 at 0.3; 0.0 new; 0.0 level 1; null
8 000201 = 8 at 0.4; 0.0 new; 0.0 level 1; 0.0 level 1
100 0001 = 8 uncaught 0.1 raise 1
100 00022 = 9 uncaught 0.2 raise 1
100 001 = 7 uncaught 0.0 raise 3";

// Reads of an unset local, and of a field of a number, which aren't well typed; a field has the value that was written last.
const UNSET: &str =
    "class Main { static void main(java.lang.String[]) { java.lang.Object a, b; a = b; return; } }";

const NUMBER: &str =
    "class A { java.lang.Object f; } class Main { static void main(java.lang.String[]) { java.lang.Object a, b; a = 1; \
b = a.<A: java.lang.Object f>; return; } }";

const LAST: &str =
    "class A { java.lang.Object f; } class Main { static void main(java.lang.String[]) { A a; java.lang.Object b; a = new A; \
a.<A: java.lang.Object f> = \"k\"; a.<A: java.lang.Object f> = a; b = a.<A: java.lang.Object f>; return; } }";

#[test]
fn runs_are_as_told(rt: HostRuntime) -> Result<(), Fail> {
    for (text, rows) in [
        (LOOP, OF_LOOP),
        (CAUGHT, OF_CAUGHT),
        (KINDS, OF_KINDS),
        (LEVELS, OF_LEVELS),
        (UNSET, "100 - = 5 ill-typed"),
        (NUMBER, "100 - = 6 ill-typed"),
        (LAST, "8 - = 8 at 0.4; 0.0 new; 0.0 new"),
    ] {
        assert_eq!(rt; first_wrong(rt.alloc(), text, &Runs, rows)?, None);
    }
    Ok(())
}
