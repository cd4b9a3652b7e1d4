//! Commands over programs, with the replies found by hand. Rows are as those of the worked programs.
use super::rows::first_wrong_in;
use asked_text::{METHOD, Pieces, is_answered, is_reply, words};
use boom_io::{MemSink, MemSource};
use boom_top::{Open, ProtocolError, Status, Which, boomer};
use jim_ast::Name;
use link_rules::{LinkError, LinkKind};
use std::alloc::{AllocError, Global};
use std::marker::Sync;
use std::test::Fail;
use std::thread::Threads;

const PROGRAM: &str = "class A { }
class Main {
static void main(java.lang.String[]) {
A x, y;
x = new A;
y = x;
label1:
if 0 == 1 goto label2;
x = new A;
goto label1;
label2:
return;
}
}
";

// The program with comments, quoted names and modifiers.
const QUOTED: &str = "// a line
public class 'A' { }
// a line
public class Main {
public static void main(java.lang.String[]) {
'A' x, y;
x = new 'A';
// a line
y = x;
label1:
if 0 == 1 goto label2;
x = new 'A';
goto label1;
label2:
return;
}
}
";

// A write takes five bytes.
const FIVE: Pieces = Pieces { read: 64, write: 5 };

const OF_PROGRAM: (&str, &str) = (
    PROGRAM,
    "points-to;Main;@;5;x;100 | points-to @ 5 x~site @ 0 new A~site @ 3 new A~sites 2~demanded 6~
points-to;Main;@;5;x;6 | points-to @ 5 x~site @ 0 new A~site @ 3 new A~sites 2~demanded 6~
points-to;Main;@;5;y;100 | points-to @ 5 y~site @ 0 new A~sites 1~demanded 6~
points-to;Main;@;0;x;100 | points-to @ 0 x~sites 0~demanded 1~
points-to;Main;@;5;x;5 | refused OverBudget 5~
points-to;Main;@;6;x;100 | refused NoSuchPlace index~
points-to;Main;@;0;z;100 | refused NoSuchPlace local~
points-to;Main;@;05;x;100 | refused Usage~
points-to;Main;@;5;x;4294967296 | refused Usage~
points-to;Main;<Main: void m()>;0;x;100 | refused NoSuchPlace method~",
);

const OF_QUOTED: (&str, &str) = (
    QUOTED,
    "points-to;Main;@;5;x;100 | points-to @ 5 x~site @ 0 new A~site @ 3 new A~sites 2~demanded 6~",
);

// Programs that a rule of linking refuses, and one that has the statement of such a program where no run comes.
const NO_ENTRY: (&str, &str) = ("", "points-to;Main;@;5;y;100 | refused NotLinked NoEntry~");

const ORPHAN: (&str, &str) = (
    "class A extends B { }",
    "points-to;Main;@;5;x;100 | refused NotLinked UnknownParent A~",
);

const EMPTY: (&str, &str) = (
    "class Main { static void main(java.lang.String[]) { } }",
    "points-to;Main;@;5;x;100 | refused NotLinked FallsOff @ 0~",
);

const NO_METHOD: (&str, &str) = (
    "class Main { static void main(java.lang.String[]) { staticinvoke <Main: void no()>(); return; } }",
    "points-to;Main;@;0;x;100 | refused NotLinked UndeclaredCallee @ 0~",
);

const UNREACHED: (&str, &str) = (
    "class A { } class Main { static void m() { staticinvoke <Main: void no()>(); return; }
static void main(java.lang.String[]) { A x; x = new A; return; } }",
    "points-to;Main;@;1;x;100 | points-to @ 1 x~site @ 0 new A~sites 1~demanded 2~",
);

#[test]
fn answers_and_refuses(rt: HostRuntime) -> Result<(), Fail> {
    for rows in [
        OF_PROGRAM, OF_QUOTED, NO_ENTRY, ORPHAN, EMPTY, NO_METHOD, UNREACHED,
    ] {
        assert_eq!(rt; first_wrong_in(&rt, FIVE, rows)?, None);
    }
    Ok(())
}

// Small bodies of `main`: an index, a local, the sites that the local may hold there by their indexes, the size of the demand, and the statements.
const BODIES: &str = "2 y 0 3 | x = new A; y = x; return;
1 y - 2 | x = new A; y = x; return;
0 x - 1 | x = new A; y = x; return;
2 x 1 2 | x = new A; x = new A; return;
2 x 0 3 | x = new A; x = x; return;
4 y 0 8 | x = new A; a: if 0 == 1 goto b; y = x; goto a; b: return;
2 x 1 3 | goto a; x = new A; a: return;
1 x 0 2 | x = new A; a: goto a;
2 x 0 3 | x = new A; if 0 == 1 goto a; a: return;
5 y 1,3 5 | if 0 == 1 goto a; x = new A; goto b; a: x = new A; b: y = x; return;
4 z - 5 | if 0 == 1 goto a; x = new A; goto b; a: x = new A; b: y = x; return;
5 x 0,1 11 | x = new A; y = new A; a: z = x; x = y; y = z; if 0 == 1 goto a; return;";

// The reply about a local of a body, which has these sites, with a comma between two.
fn found(
    alloc: Global,
    index: &str,
    local: &str,
    sites: &str,
    demanded: &str,
) -> Result<String, AllocError> {
    let mut reply = format!(in alloc; "points-to {METHOD} {index} {local}\n")?;
    let mut count: u32 = 0;
    for site in sites.split(',').filter(|site| *site != "-") {
        write!(reply, "site {METHOD} {site} new A\n")?;
        count = count.saturating_add(1);
    }
    write!(reply, "sites {count}\ndemanded {demanded}\n")?;
    Ok(reply)
}

// The parts of a row.
fn parts(row: &str) -> Option<(&str, &str, &str, &str, &str)> {
    let (asked, body) = row.split_once(" | ")?;
    let (index, rest) = asked.split_once(' ')?;
    let (local, rest) = rest.split_once(' ')?;
    let (sites, demanded) = rest.split_once(' ')?;
    Some((index, local, sites, demanded, body))
}

fn is_body_right<R: Threads + AllocGlobal + Sync>(rt: &R, row: &str) -> Result<bool, AllocError> {
    let Some((index, local, sites, demanded, body)) = parts(row) else {
        return Ok(false);
    };
    let text = format!(in rt.alloc();
        "class A {{ }} class Main {{ static void main(java.lang.String[]) {{ A x, y, z; {body} }} }}"
    )?;
    let words = format!(in rt.alloc(); "points-to;Main;@;{index};{local};100")?;
    let reply = found(rt.alloc(), index, local, sites, demanded)?;
    is_reply(rt, words.as_str(), text.as_bytes(), FIVE, 0, reply.as_str())
}

fn first_body<R: Threads + AllocGlobal + Sync>(rt: &R) -> Result<Option<&'static str>, AllocError> {
    for row in BODIES.lines() {
        if !is_body_right(rt, row)? {
            return Ok(Some(row));
        }
    }
    Ok(None)
}

#[test]
fn answers_small_bodies(rt: HostRuntime) -> Result<(), Fail> {
    assert_eq!(rt; first_body(&rt)?, None);
    Ok(())
}

// No words.
fn refuses_nothing<R: Threads + AllocGlobal + Sync>(rt: &R) -> Result<bool, AllocError> {
    let bytes = Vec::from_slice(rt.alloc(), PROGRAM.as_bytes())?;
    is_answered(rt, &[], bytes, FIVE, 1, b"refused Usage\n")
}

// The status of no words over a source whose first read fails, and that of a query over it behind them.
fn statuses_of_unread<R: Threads + AllocGlobal + Sync>(rt: &R) -> Result<(u8, u8), AllocError> {
    let bytes = Vec::from_slice(rt.alloc(), PROGRAM.as_bytes())?;
    let mut source = MemSource::new(bytes, vec![in rt.alloc(); 0]?, 64);
    let mut sink = MemSink::new(rt.alloc(), 1000, Vec::new(rt.alloc()), 8)?;
    let words = words(rt.alloc(), ASKED)?;
    let first = boomer(rt, rt.alloc(), &[], &mut source, &mut sink, &Open).number();
    let then = boomer(rt, rt.alloc(), &words, &mut source, &mut sink, &Open).number();
    Ok((first, then))
}

// Words that are no command read nothing: the first read is still to come.
#[test]
fn no_words_leave_the_source_unread(rt: HostRuntime) -> Result<(), Fail> {
    let (first, then) = statuses_of_unread(&rt)?;
    assert_eq!(rt; first, 1);
    assert_eq!(rt; then, 2);
    Ok(())
}

// Texts that are no programs, each with the number of the status and what is refused.
const TEXTS: &str = "5 NotJimple 9 | class Main { static void main(java.lang.String[
5 NotJimple 5 | class A { int x }
4 NotText 10 | class A { # }
5 NotJimple 1 | interface
5 NotJimple 9 | class A { void m() { x } }";

// The command of these rows.
const ASKED: &str = "points-to;Main;@;5;x;100";

fn is_text_refused<R: Threads + AllocGlobal + Sync>(rt: &R, row: &str) -> Result<bool, AllocError> {
    let Some((told, text)) = row.split_once(" | ") else {
        return Ok(false);
    };
    let Some((number, refused)) = told.split_once(' ') else {
        return Ok(false);
    };
    let reply = format!(in rt.alloc(); "refused {refused}\n")?;
    match number.parse::<u8>() {
        Ok(number) => is_reply(rt, ASKED, text.as_bytes(), FIVE, number, reply.as_str()),
        Err(_) => Ok(false),
    }
}

fn first_text<R: Threads + AllocGlobal + Sync>(rt: &R) -> Result<Option<&'static str>, AllocError> {
    for row in TEXTS.lines() {
        if !is_text_refused(rt, row)? {
            return Ok(Some(row));
        }
    }
    Ok(None)
}

// Bytes that are no text.
fn refuses_bytes<R: Threads + AllocGlobal + Sync>(rt: &R) -> Result<bool, AllocError> {
    Ok(
        is_reply(rt, ASKED, b"\xff", FIVE, 4, "refused NotText 0\n")?
            && is_reply(rt, ASKED, b"class \xff", FIVE, 4, "refused NotText 6\n")?,
    )
}

#[test]
fn refuses_words_and_texts(rt: HostRuntime) -> Result<(), Fail> {
    assert!(rt; refuses_nothing(&rt)?);
    assert_eq!(rt; first_text(&rt)?, None);
    assert!(rt; refuses_bytes(&rt)?);
    Ok(())
}

// Whether the command gets a status of this number, and these bytes are written.
fn is_written<R: Threads + AllocGlobal + Sync>(
    rt: &R,
    source: &mut MemSource,
    sink: &mut MemSink,
    number: u8,
    written: &[u8],
) -> Result<bool, AllocError> {
    let words = words(rt.alloc(), ASKED)?;
    Ok(
        boomer(rt, rt.alloc(), &words, source, sink, &Open).number() == number
            && sink.bytes() == written,
    )
}

// Whether a write that fails is told, and what was written before.
fn tells_write<R: Threads + AllocGlobal + Sync>(
    rt: &R,
    call: u32,
    written: &[u8],
) -> Result<bool, AllocError> {
    let bytes = Vec::from_slice(rt.alloc(), PROGRAM.as_bytes())?;
    let mut source = MemSource::new(bytes, Vec::new(rt.alloc()), 64);
    let mut sink = MemSink::new(rt.alloc(), 1000, vec![in rt.alloc(); call]?, 8)?;
    is_written(rt, &mut source, &mut sink, 12, written)
}

// Whether a source gets a status of this number, and this reply.
fn tells_read<R: Threads + AllocGlobal + Sync>(
    rt: &R,
    source: &mut MemSource,
    number: u8,
    reply: &[u8],
) -> Result<bool, AllocError> {
    let mut sink = MemSink::new(rt.alloc(), 1000, Vec::new(rt.alloc()), 8)?;
    is_written(rt, source, &mut sink, number, reply)
}

fn tells_fault<R: Threads + AllocGlobal + Sync>(rt: &R) -> Result<bool, AllocError> {
    let bytes = Vec::from_slice(rt.alloc(), PROGRAM.as_bytes())?;
    let mut source = MemSource::new(bytes, vec![in rt.alloc(); 0]?, 64);
    tells_read(rt, &mut source, 2, b"")
}

fn tells_length<R: Threads + AllocGlobal + Sync>(rt: &R) -> Result<bool, AllocError> {
    let blanks = vec![in rt.alloc(); b' '; 16_777_217]?;
    let mut source = MemSource::new(blanks, Vec::new(rt.alloc()), 1_000_000);
    tells_read(rt, &mut source, 3, b"refused TooLong\n")
}

#[test]
fn tells_faults(rt: HostRuntime) -> Result<(), Fail> {
    assert!(rt; tells_write(&rt, 1, b"points-t")?);
    assert!(rt; tells_write(&rt, 0, b"")?);
    assert!(rt; tells_fault(&rt)?);
    assert!(rt; tells_length(&rt)?);
    Ok(())
}

fn number_of_not_linked(alloc: Global) -> u8 {
    let error = LinkError::Refused {
        kind: LinkKind::NoEntry,
        place: Name::from_string(String::new(alloc)),
        index: 0,
    };
    Status::NotLinked(error).number()
}

fn numbers_without_parts() -> [u8; 7] {
    [
        Status::Done.number(),
        Status::Usage.number(),
        Status::ReadFault.number(),
        Status::TooLong.number(),
        Status::WriteFault.number(),
        Status::NoMemory.number(),
        Status::BadPrelude.number(),
    ]
}

fn numbers_with_parts() -> [u8; 7] {
    let which = Which::Index;
    [
        Status::NotText { at: 9 }.number(),
        Status::NotJimple { at: 9 }.number(),
        Status::NoSuchPlace { which }.number(),
        Status::NotProtocol(ProtocolError::UnknownClass).number(),
        Status::NotCertificate { at: 9 }.number(),
        Status::Rejected { line: 9 }.number(),
        Status::OverBudget { budget: 1 }.number(),
    ]
}

#[test]
fn numbers_statuses(rt: HostRuntime) -> Result<(), Fail> {
    assert_eq!(rt; number_of_not_linked(rt.alloc()), 6);
    assert!(rt; numbers_without_parts() == [0, 1, 2, 3, 12, 13, 16]);
    assert!(rt; numbers_with_parts() == [4, 5, 7, 8, 9, 10, 11]);
    Ok(())
}
