//! Programs under protocols, with the replies found by hand.
use asked_text::{Pieces, is_reply_to};
use std::alloc::AllocError;
use std::marker::Sync;
use std::test::Fail;
use std::thread::Threads;

// A file is opened and read by a method, and closed by its caller.
const CLOSED: &str =
    "class F { void open() { return; } void read() { return; } void close() { return; } }
class Main {
static void use(F) { F p; p := @parameter0: F; virtualinvoke p.<F: void open()>(); virtualinvoke p.<F: void read()>(); return; }
static void main(java.lang.String[]) { F f, g; f = new F; staticinvoke <Main: void use(F)>(f); g = f; virtualinvoke f.<F: void close()>(); return; } }
";

// The same, and it is read by another name once more.
const READ: &str =
    "class F { void open() { return; } void read() { return; } void close() { return; } }
class Main {
static void use(F) { F p; p := @parameter0: F; virtualinvoke p.<F: void open()>(); virtualinvoke p.<F: void read()>(); return; }
static void main(java.lang.String[]) { F f, g; f = new F; staticinvoke <Main: void use(F)>(f); g = f; virtualinvoke f.<F: void close()>();
virtualinvoke g.<F: void read()>(); return; } }
";

// A row has the entry, the protocol, the budget, the number of the status, and the lines of the reply, with `~` behind each. Answers, and refusals in the order of
// the checks: of linking, of the word by its grammar, its states and its class, and of the demand.
const OF_CLOSED: &str =
    "Main | F closed;closed open opened;opened read opened;opened close closed | 10 | 0 | typestate Main F~verdict safe~demanded 10~
Main | F closed;closed open opened;opened read opened;opened close closed | 100 | 0 | typestate Main F~verdict safe~demanded 10~
F |  | 0 | 6 | refused NotLinked NoEntry~
Main | F closed;closed open | 0 | 8 | refused NotProtocol grammar 1~
Main | F 0;0 e 1;1 e 2;2 e 3;3 e 4;4 e 5;5 e 6;6 e 7;7 e 8;8 e 9;9 e 10;10 e 11;11 e 12;12 e 13;13 e 14;14 e 15;15 e 16 | 0 | 8 | refused NotProtocol states 16~
Main | G closed | 0 | 8 | refused NotProtocol class~
Main | F closed;closed open opened;opened read opened;opened close closed | 9 | 11 | refused OverBudget 9~";

const OF_READ: &str =
    "Main | F closed;closed open opened;opened read opened;opened close closed | 12 | 0 | typestate Main F~unsafe <Main: void main(java.lang.String[])> 0 new F at <Main: void main(java.lang.String[])> 4 state closed event read~verdict unsafe 1~demanded 12~
Main | F closed;closed open opened;opened read opened;opened close closed | 100 | 0 | typestate Main F~unsafe <Main: void main(java.lang.String[])> 0 new F at <Main: void main(java.lang.String[])> 4 state closed event read~verdict unsafe 1~demanded 12~
Main | F closed;closed open | 100 | 8 | refused NotProtocol grammar 1~
Main | G closed | 100 | 8 | refused NotProtocol class~";

const PIECES: Pieces = Pieces {
    read: 1000,
    write: 64,
};

// A row, cut.
#[derive(Clone, Copy)]
struct Row<'a> {
    entry: &'a str,
    protocol: &'a str,
    budget: &'a str,
    number: u8,
    reply: &'a str,
}

fn row_of(text: &str) -> Option<Row<'_>> {
    let (entry, rest) = text.split_once(" | ")?;
    let (protocol, rest) = rest.split_once(" | ")?;
    let (budget, rest) = rest.split_once(" | ")?;
    let (number, reply) = rest.split_once(" | ")?;
    Some(Row {
        entry,
        protocol,
        budget,
        number: number.parse::<u8>().ok()?,
        reply,
    })
}

// Whether a row gets its reply.
fn is_right<R: Threads + AllocGlobal + Sync>(
    rt: &R,
    program: &str,
    row: &str,
) -> Result<bool, AllocError> {
    let Some(row) = row_of(row) else {
        return Ok(false);
    };
    let reply = row.reply.replace(rt.alloc(), "~", "\n")?;
    let words = ["typestate", row.entry, row.protocol, row.budget];
    is_reply_to(rt, &words, program, PIECES, row.number, reply.as_str())
}

fn first_wrong<R: Threads + AllocGlobal + Sync>(
    rt: &R,
    program: &str,
    rows: &'static str,
) -> Result<Option<&'static str>, AllocError> {
    for row in rows.lines() {
        if !is_right(rt, program, row)? {
            return Ok(Some(row));
        }
    }
    Ok(None)
}

#[test]
fn answers_protocols(rt: HostRuntime) -> Result<(), Fail> {
    assert_eq!(rt; first_wrong(&rt, CLOSED, OF_CLOSED)?, None);
    assert_eq!(rt; first_wrong(&rt, READ, OF_READ)?, None);
    Ok(())
}
