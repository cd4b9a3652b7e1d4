//! Explanations of answers, with the replies found by hand.
use asked_text::{reply_of, reply_text};
use boom_io::{MemSink, MemSource};
use boom_top::{Open, boomer};
use std::alloc::{AllocError, Global};
use std::marker::Sync;
use std::test::Fail;
use std::thread::Threads;

// Two callers of one method.
const PROGRAM: &str = "class A { } class B { } class Main {
static java.lang.Object id(java.lang.Object) { java.lang.Object p; p := @parameter0: java.lang.Object; return p; }
static void main(java.lang.String[]) { java.lang.Object a, b, x, y; a = new A; b = new B;
x = staticinvoke <Main: java.lang.Object id(java.lang.Object)>(a);
y = staticinvoke <Main: java.lang.Object id(java.lang.Object)>(b); return; } }
";

// Words with `;` between two, the number of the status, and how the reply begins: what isn't there is told before what is over the budget.
const ROWS: [(&str, u8, &str); 3] = [
    (
        "explain;Main;<Main: void main(java.lang.String[])>;4;x;100",
        0,
        "explain <Main: void main(java.lang.String[])> 4 x\nsite <Main: void main(java.lang.String[])> 0 new A\nlength 6\ncertificate 16\nquery 1.4.l2\n",
    ),
    (
        "explain;Main;<Main: void main(java.lang.String[])>;4;z;0",
        7,
        "refused NoSuchPlace local\n",
    ),
    (
        "explain;Main;<Main: void main(java.lang.String[])>;4;x;9",
        11,
        "refused OverBudget 9\n",
    ),
];

// Whether a row gets its status, and a reply that begins so.
fn is_answered<R: Threads + AllocGlobal + Sync>(
    rt: &R,
    row: &str,
    number: u8,
    reply: &str,
) -> Result<bool, AllocError> {
    let mut words = Vec::new(rt.alloc());
    for word in row.split(';') {
        words.push(String::from_str(rt.alloc(), word)?)?;
    }
    let bytes = Vec::from_slice(rt.alloc(), PROGRAM.as_bytes())?;
    let mut source = MemSource::new(bytes, Vec::new(rt.alloc()), 1000);
    let mut sink = MemSink::new(rt.alloc(), 2000, Vec::new(rt.alloc()), 64)?;
    let status = boomer(rt, rt.alloc(), &words, &mut source, &mut sink, &Open);
    Ok(status.number() == number && sink.bytes().starts_with(reply.as_bytes()))
}

#[test]
fn explains_answers(rt: HostRuntime) -> Result<(), Fail> {
    for (row, number, reply) in ROWS {
        assert!(rt; is_answered(&rt, row, number, reply)?, "{row}");
    }
    Ok(())
}

// Explanations without their certificates, of which no clause says which ones are printed. A row has a command, and behind ` | ` the lines, with `~` behind
// each. The length is the number of steps of a shortest derivation through fields. Three lead from each of the two objects to `x` at the end.
const LOOP: (&str, &str) = (
    "class A { }
class Main {
static void main(java.lang.String[]) {
A x, y;
x = new A;
y = x;
label1:
if 0 == 1 goto label2;
x = new A;
goto label1;
label2:
return;
}
}
",
    "explain;Main;@;5;x;100 | explain @ 5 x~site @ 0 new A~length 3~site @ 3 new A~length 3~sites 2~demanded 6~",
);

// Five steps lead from the object to where it is stored, one to the box, eight from there to where it is loaded, one to what it is loaded into, two back to
// `x`.
const BOXES: (&str, &str) = (
    "class A { } class B { } class Box { java.lang.Object v;
void set(java.lang.Object) { Box r; java.lang.Object p; r := @this: Box; p := @parameter0: java.lang.Object; r.<Box: java.lang.Object v> = p; return; }
java.lang.Object get() { Box r; java.lang.Object q; r := @this: Box; q = r.<Box: java.lang.Object v>; return q; } }
class Main { static void main(java.lang.String[]) { Box a, b; java.lang.Object o, p, x, y; a = new Box; b = new Box; o = new A; p = new B;
virtualinvoke a.<Box: void set(java.lang.Object)>(o); virtualinvoke b.<Box: void set(java.lang.Object)>(p);
x = virtualinvoke a.<Box: java.lang.Object get()>(); y = virtualinvoke b.<Box: java.lang.Object get()>(); return; } }",
    "explain;Main;@;8;x;100 | explain @ 8 x~site @ 2 new A~length 17~sites 1~demanded 31~",
);

// The lines of an explanation, without those of its certificates.
fn outline(alloc: Global, reply: &str) -> Result<String, AllocError> {
    let mut text = String::new(alloc);
    let mut skipped: u32 = 0;
    for line in reply.lines() {
        if skipped > 0 {
            skipped -= 1;
            continue;
        }
        match line.strip_prefix("certificate ") {
            // The query comes first, and isn't counted.
            Some(count) => skipped = count.parse::<u32>().unwrap_or(0).saturating_add(1),
            None => {
                text.push_str(line)?;
                text.push('\n')?;
            }
        }
    }
    Ok(text)
}

// Whether the row of a program is answered so.
fn is_outlined<R: Threads + AllocGlobal + Sync>(
    rt: &R,
    rows: (&'static str, &'static str),
) -> Result<bool, AllocError> {
    let (program, row) = rows;
    let Some((asked, told)) = row.split_once(" | ") else {
        return Ok(false);
    };
    let wanted = reply_text(rt.alloc(), told)?;
    let (number, reply) = reply_of(rt, asked, program)?;
    match std::str::from_utf8(reply.as_slice()) {
        Ok(reply) => {
            let found = outline(rt.alloc(), reply)?;
            Ok(number == 0 && found.as_str() == wanted.as_str())
        }
        Err(_) => Ok(false),
    }
}

#[test]
fn tells_shortest_lengths(rt: HostRuntime) -> Result<(), Fail> {
    for rows in [LOOP, BOXES] {
        assert!(rt; is_outlined(&rt, rows)?);
    }
    Ok(())
}
