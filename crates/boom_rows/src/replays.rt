//! Replays of certificates behind a program, with the replies found by hand.
use asked_text::{Pieces, is_reply};
use std::alloc::{AllocError, Global};
use std::marker::Sync;
use std::test::Fail;
use std::thread::Threads;

// Two callers of one method. Method 0 is `id`, and 1 is `main`.
const PROGRAM: &str = "class A { } class B { } class Main {
static java.lang.Object id(java.lang.Object) { java.lang.Object p; p := @parameter0: java.lang.Object; return p; }
static void main(java.lang.String[]) { java.lang.Object a, b, x, y; a = new A; b = new B;
x = staticinvoke <Main: java.lang.Object id(java.lang.Object)>(a);
y = staticinvoke <Main: java.lang.Object id(java.lang.Object)>(b); return; } }
";

// That `x` may hold what comes back from the first call. Its query demands ten nodes.
const CERTIFICATE: &str = "query 1.4.l2
start F 1.0.new
flow F 1 1.1.l0
flow F 2 1.2.l0
flow F 3 0.0.p0
flow F 4 0.1.l0
flow F 5 1.3.l2
flow F 6 1.4.l2
start C 1.0.new
flow C 8 1.1.l0
flow C 9 1.2.l0
push C 10 0.0.p0
flow C 11 0.1.l0
link C 10 0.0.p0
pop C 12 13 1.3.l2
flow C 14 1.4.l2
claim 7 15
";

const ACCEPTED: &str = "accepted <Main: void main(java.lang.String[])> 4 x
site <Main: void main(java.lang.String[])> 0 new A
demanded 10
";

// Certificates of one line or two, in the order of the checks: what is no certificate, what no query may name, what is over the budget, and lines. A row has how many
// nodes may be demanded, the number of the status, what is refused, and what stands behind the program, with `;` for a line feed.
const SMALL: &str = "100 | 9 | NotCertificate 0 | 
100 | 9 | NotCertificate 0 | %certificate
100 | 9 | NotCertificate 0 | %certificate;;
100 | 9 | NotCertificate 0 | %certificate;%certificate;query 1.4.l2;
100 | 9 | NotCertificate 1 | %certificate;query 1.4.l2;%certificate;
0 | 9 | NotCertificate 1 | %certificate;query 1.4.l2;claim 4294967296 1
100 | 9 | NotCertificate 2 | %certificate;query 1.4.l2;claim 1 2;;
0 | 10 | Rejected 0 | %certificate;query 9.0.l0;
0 | 10 | Rejected 0 | %certificate;query 1.4.new;
0 | 10 | Rejected 0 | %certificate;query 1.4.l4;
100 | 10 | Rejected 0 | %certificate;query 1.2!.l2;
9 | 11 | OverBudget 9 | %certificate;query 1.4.l2;claim 1 2;
10 | 10 | Rejected 1 | %certificate;query 1.4.l2;claim 4294967295 1
100 | 10 | Rejected 1 | %certificate;query 1.4.l2
100 | 10 | Rejected 2 | %certificate;query 1.4.l2;start F 1.0.new;";

// Whether that is answered to a replay over these bytes.
fn is_answered<R: Threads + AllocGlobal + Sync>(
    rt: &R,
    input: &str,
    budget: &str,
    number: u8,
    reply: &str,
) -> Result<bool, AllocError> {
    let words = format!(in rt.alloc(); "replay;Main;{budget}")?;
    let pieces = Pieces {
        read: 1_000_000,
        write: 64,
    };
    is_reply(rt, words.as_str(), input.as_bytes(), pieces, number, reply)
}

// The program, and a certificate behind the mark.
fn marked(alloc: Global, certificate: &str) -> Result<String, AllocError> {
    format!(in alloc; "{PROGRAM}%certificate\n{certificate}")
}

// Whether what the certificate shows is accepted, with a line feed behind it and without, and within no smaller budget.
fn accepts<R: Threads + AllocGlobal + Sync>(rt: &R) -> Result<bool, AllocError> {
    let input = marked(rt.alloc(), CERTIFICATE)?;
    let open = input.as_str().trim_end();
    Ok(
        is_answered(rt, input.as_str(), "10", 0, ACCEPTED)?
            && is_answered(rt, input.as_str(), "100", 0, ACCEPTED)?
            && is_answered(rt, input.as_str(), "9", 11, "refused OverBudget 9\n")?
            && is_answered(rt, open, "10", 0, ACCEPTED)?,
    )
}

#[test]
fn accepts_what_is_shown(rt: HostRuntime) -> Result<(), Fail> {
    assert!(rt; accepts(&rt)?);
    Ok(())
}

// The link stands behind the line that cites it.
fn rejects_later<R: Threads + AllocGlobal + Sync>(rt: &R) -> Result<bool, AllocError> {
    let Some((front, _)) = CERTIFICATE.split_once("link C 10") else {
        return Ok(false);
    };
    let input = format!(in rt.alloc();
        "{PROGRAM}%certificate\n{front}pop C 12 14 1.3.l2\nlink C 10 0.0.p0\nflow C 13 1.4.l2\nclaim 7 15\n"
    )?;
    is_answered(rt, input.as_str(), "100", 10, "refused Rejected 13\n")
}

#[test]
fn rejects_a_line_that_cites_a_later_one(rt: HostRuntime) -> Result<(), Fail> {
    assert!(rt; rejects_later(&rt)?);
    Ok(())
}

// Whether what ends behind so many lines is rejected at the next one, where the claim is wanting.
fn rejects_front<R: Threads + AllocGlobal + Sync>(
    rt: &R,
    front: &str,
    number: u32,
) -> Result<bool, AllocError> {
    let input = marked(rt.alloc(), front)?;
    let reply = format!(in rt.alloc(); "refused Rejected {number}\n")?;
    is_answered(rt, input.as_str(), "100", 10, reply.as_str())
}

// How many lines there are before the first front that isn't rejected so.
fn fronts<R: Threads + AllocGlobal + Sync>(rt: &R) -> Result<u32, AllocError> {
    let mut front = String::new(rt.alloc());
    let mut number: u32 = 0;
    for line in CERTIFICATE.lines() {
        if number > 0 && !rejects_front(rt, front.as_str(), number)? {
            return Ok(number);
        }
        front.push_str(line)?;
        front.push('\n')?;
        number = number.saturating_add(1);
    }
    Ok(number)
}

// All but the last line: what stands behind the last one is where the claim is wanting.
#[test]
fn rejects_each_front(rt: HostRuntime) -> Result<(), Fail> {
    assert_eq!(rt; fronts(&rt)?, 17);
    Ok(())
}

// The parts of a row.
fn parts(row: &str) -> Option<(&str, u8, &str, &str)> {
    let (budget, rest) = row.split_once(" | ")?;
    let (number, rest) = rest.split_once(" | ")?;
    let (refused, behind) = rest.split_once(" | ")?;
    Some((budget, number.parse::<u8>().ok()?, refused, behind))
}

fn is_right<R: Threads + AllocGlobal + Sync>(rt: &R, row: &str) -> Result<bool, AllocError> {
    let Some((budget, number, refused, behind)) = parts(row) else {
        return Ok(false);
    };
    let behind = behind.replace(rt.alloc(), ";", "\n")?;
    let input = format!(in rt.alloc(); "{PROGRAM}{}", behind.as_str())?;
    let reply = format!(in rt.alloc(); "refused {refused}\n")?;
    is_answered(rt, input.as_str(), budget, number, reply.as_str())
}

fn first_wrong<R: Threads + AllocGlobal + Sync>(
    rt: &R,
) -> Result<Option<&'static str>, AllocError> {
    for row in SMALL.lines() {
        if !is_right(rt, row)? {
            return Ok(Some(row));
        }
    }
    Ok(None)
}

#[test]
fn refuses_in_order(rt: HostRuntime) -> Result<(), Fail> {
    assert_eq!(rt; first_wrong(&rt)?, None);
    Ok(())
}

// The mark in the first line leaves no program.
fn cuts_at_the_first<R: Threads + AllocGlobal + Sync>(rt: &R) -> Result<bool, AllocError> {
    let input = format!(in rt.alloc(); "%certificate\n{PROGRAM}{CERTIFICATE}")?;
    is_answered(rt, input.as_str(), "100", 6, "refused NotLinked NoEntry\n")
}

// A line with more than the mark is none.
fn cuts_at_no_more<R: Threads + AllocGlobal + Sync>(rt: &R) -> Result<bool, AllocError> {
    let input = format!(in rt.alloc();
        "{PROGRAM}// %certificate\n/*\n%certificate \n*/\n%certificate\n{CERTIFICATE}"
    )?;
    is_answered(rt, input.as_str(), "100", 0, ACCEPTED)
}

// A comment is cut too.
fn cuts_comments<R: Threads + AllocGlobal + Sync>(rt: &R) -> Result<bool, AllocError> {
    let input = format!(in rt.alloc(); "{PROGRAM}/*\n%certificate\n*/\n{CERTIFICATE}")?;
    let at = PROGRAM.len();
    let reply = format!(in rt.alloc(); "refused NotText {at}\n")?;
    is_answered(rt, input.as_str(), "100", 4, reply.as_str())
}

#[test]
fn cuts_at_whole_lines(rt: HostRuntime) -> Result<(), Fail> {
    assert!(rt; cuts_at_the_first(&rt)?);
    assert!(rt; cuts_at_no_more(&rt)?);
    assert!(rt; cuts_comments(&rt)?);
    Ok(())
}

// The limit is asked of the whole input.
fn counts<R: Threads + AllocGlobal + Sync>(rt: &R) -> Result<bool, AllocError> {
    let mut input = marked(rt.alloc(), CERTIFICATE)?;
    for _ in 0..262_144 {
        input.push_str("                                                                ")?;
    }
    is_answered(rt, input.as_str(), "100", 3, "refused TooLong\n")
}

#[test]
fn counts_the_certificate(rt: HostRuntime) -> Result<(), Fail> {
    assert!(rt; counts(&rt)?);
    Ok(())
}
