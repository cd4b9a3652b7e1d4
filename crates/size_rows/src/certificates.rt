//! A long certificate, which is printed and replayed.
use super::answers::{ANY, ROOM, is_answered};
use asked_text::{METHOD, whole_reply};
use std::alloc::{AllocError, Global};
use std::marker::Sync;
use std::str::from_utf8;
use std::test::Fail;
use std::thread::Threads;

// The cells of the list.
const CELLS: u32 = 160;

// The least number of lines of its certificate that is wanted.
const LINES: usize = 100_000;

// A list of so many cells, which are all made first, then joined, and read to the last one. Each cell is held by a local from where it is made to where it is
// joined.
fn list(alloc: Global, count: u32) -> Result<String, AllocError> {
    let mut text = String::from_str(
        alloc,
        "class N { N n; } class Main { static void main(java.lang.String[]) { N x;\n",
    )?;
    for k in 0..count {
        write!(text, "N a{k};\n")?;
    }
    for k in 0..count {
        write!(text, "a{k} = new N;\n")?;
    }
    for k in 1..count {
        let before = k.saturating_sub(1);
        write!(text, "a{before}.<N: N n> = a{k};\n")?;
    }
    text.push_str("x = a0;\n")?;
    for _ in 1..count {
        text.push_str("x = x.<N: N n>;\n")?;
    }
    text.push_str("return; } }\n")?;
    Ok(text)
}

// What an explanation of one site tells before its certificate and behind it, and the certificate.
#[derive(Clone, Copy)]
struct Explained<'a> {
    before: &'a str,
    lines: usize,
    certificate: &'a str,
    behind: &'a str,
}

fn parts(reply: &str) -> Option<Explained<'_>> {
    let (before, rest) = reply.split_once("certificate ")?;
    let (count, rest) = rest.split_once('\n')?;
    let (certificate, behind) = rest.split_once("sites ")?;
    Some(Explained {
        before,
        lines: count.parse::<usize>().ok()?,
        certificate,
        behind,
    })
}

// The last cell, and each before it but the first, comes by 159 rules to where it is stored, and there to the cell that it is stored into by one more. The
// first cell comes to its copy by 319, and `x` is copied and loaded by 160.
const BEFORE: &str = "explain <Main: void main(java.lang.String[])> 479 x
site <Main: void main(java.lang.String[])> 159 new N
length 25919
";

// The first cell is demanded 320 times, the last one 160 times, each other one 161 times, and `x` 160 times.
const BEHIND: &str = "1\ndemanded 26078\n";

const ACCEPTED: &str = "accepted <Main: void main(java.lang.String[])> 479 x
site <Main: void main(java.lang.String[])> 159 new N
demanded 26078
";

// Whether an explanation has the site, with a certificate that has as many lines behind its query as are told, and no fewer than are wanted.
fn is_long(found: Explained<'_>) -> bool {
    found.before == BEFORE
        && found.behind == BEHIND
        && found.lines >= LINES
        && found.certificate.lines().count() == found.lines.saturating_add(1)
        && found.certificate.starts_with("query 0.479.l0\n")
}

// Whether the certificate is accepted behind the program.
fn is_accepted<R: Threads + AllocGlobal + Sync>(
    rt: &R,
    text: &str,
    certificate: &str,
) -> Result<bool, AllocError> {
    let input = format!(in rt.alloc(); "{text}%certificate\n{certificate}")?;
    is_answered(rt, &["replay", "Main", ANY], input.as_str(), ACCEPTED)
}

fn replays<R: Threads + AllocGlobal + Sync>(rt: &R) -> Result<bool, AllocError> {
    let text = list(rt.alloc(), CELLS)?;
    let words = ["explain", "Main", METHOD, "479", "x", ANY];
    let (number, bytes) = whole_reply(rt, &words, text.as_str(), ROOM)?;
    let Ok(reply) = from_utf8(bytes.as_slice()) else {
        return Ok(false);
    };
    match parts(reply) {
        Some(found) if number == 0 && is_long(found) => {
            is_accepted(rt, text.as_str(), found.certificate)
        }
        _ => Ok(false),
    }
}

#[test]
fn a_certificate_has_100000_lines(rt: HostRuntime) -> Result<(), Fail> {
    assert!(rt; replays(&rt)?);
    Ok(())
}
