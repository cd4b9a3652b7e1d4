//! A program, and a certificate, that end too early.
use super::texts::{CALLS, CERTIFICATE};
use asked_text::{SMALL, is_reply_to, status_of};
use compiled_text::AS_COMPILED;
use std::alloc::AllocError;
use std::marker::Sync;
use std::test::Fail;
use std::thread::Threads;

// The number of the status of a program that ends behind so many bytes.
fn status_of_front<R: Threads + AllocGlobal + Sync>(rt: &R, front: &str) -> Result<u8, AllocError> {
    let words = [
        "points-to",
        "Main",
        "<Main: void main(java.lang.String[])>",
        "6",
        "$r1",
        "100",
    ];
    status_of(rt, &words, front)
}

// How many fronts there are before the first with another status than 4, 5 or 6, and how many there are up to the last brace.
fn fronts<R: Threads + AllocGlobal + Sync>(rt: &R) -> Result<(usize, usize), AllocError> {
    let last = AS_COMPILED.rfind('}').unwrap_or(0);
    for end in 1..=last {
        let Some(front) = AS_COMPILED.get(..end) else {
            return Ok((end, last));
        };
        if !matches!(status_of_front(rt, front)?, 4..=6) {
            return Ok((end, last));
        }
    }
    Ok((last, last))
}

#[test]
fn refuses_a_program_that_is_cut(rt: HostRuntime) -> Result<(), Fail> {
    let (refused, all) = fronts(&rt)?;
    assert_eq!(rt; refused, all);
    assert_eq!(rt; status_of_front(&rt, AS_COMPILED)?, 0);
    Ok(())
}

// Whether a certificate that ends behind so many lines is refused at the next one.
fn is_rejected<R: Threads + AllocGlobal + Sync>(rt: &R, lines: usize) -> Result<bool, AllocError> {
    let mut input = format!(in rt.alloc(); "{CALLS}%certificate\n")?;
    for line in CERTIFICATE.lines().take(lines.saturating_add(1)) {
        input.push_str(line)?;
        input.push('\n')?;
    }
    let next = lines.saturating_add(1);
    let reply = format!(in rt.alloc(); "refused Rejected {next}\n")?;
    let words = ["replay", "Main", "100"];
    is_reply_to(rt, &words, input.as_str(), SMALL, 10, reply.as_str())
}

#[test]
fn rejects_a_certificate_that_is_cut(rt: HostRuntime) -> Result<(), Fail> {
    for lines in 0..16 {
        assert!(rt; is_rejected(&rt, lines)?, "{lines}");
    }
    Ok(())
}
