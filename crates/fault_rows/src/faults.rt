//! Each read and each write of a command fails in turn.
use super::texts::{BOXES, CALLS, CERTIFICATE, FILES, PROTOCOL};
use asked_text::{Command, METHOD, SMALL, is_reply_to, reads_that_fail, writes_that_fail};
use std::alloc::AllocError;
use std::marker::Sync;
use std::test::Fail;
use std::thread::Threads;

// Whether each read, and each write, of a command fails as it should; it makes some of each.
fn fails<R: Threads + AllocGlobal + Sync>(
    rt: &R,
    words: &[&str],
    text: &str,
) -> Result<bool, AllocError> {
    let command = Command { words, text };
    let reads = reads_that_fail(rt, command)?;
    let writes = writes_that_fail(rt, command)?;
    Ok(reads > Some(0) && writes > Some(0))
}

#[test]
fn reads_and_writes_of_queries_fail(rt: HostRuntime) -> Result<(), Fail> {
    assert!(rt; fails(&rt, &["points-to", "Main", METHOD, "4", "x", "100"], CALLS)?);
    assert!(rt; fails(&rt, &["explain", "Main", METHOD, "4", "x", "100"], CALLS)?);
    assert!(rt; fails(&rt, &["alias", "Main", METHOD, "4", "x", "y", "100"], CALLS)?);
    Ok(())
}

// A read takes 64 bytes, and the last one finds none; a write gives five bytes of the reply. Each of them fails in turn.
fn fields_fail<R: Threads + AllocGlobal + Sync>(rt: &R) -> Result<bool, AllocError> {
    let words = ["points-to", "Main", METHOD, "8", "x", "100"];
    let reply = format!(in rt.alloc();
        "points-to {METHOD} 8 x\nsite {METHOD} 2 new A\nsites 1\ndemanded 31\n"
    )?;
    let command = Command {
        words: &words,
        text: BOXES,
    };
    let reads = reads_that_fail(rt, command)?.map(|count| count as usize);
    let writes = writes_that_fail(rt, command)?.map(|count| count as usize);
    Ok(
        is_reply_to(rt, &words, BOXES, SMALL, 0, reply.as_str())?
            && reads == Some(BOXES.len().div_ceil(64).saturating_add(1))
            && writes == Some(reply.len().div_ceil(5)),
    )
}

#[test]
fn each_read_and_write_of_fields_fails(rt: HostRuntime) -> Result<(), Fail> {
    assert!(rt; fields_fail(&rt)?);
    Ok(())
}

#[test]
fn reads_and_writes_of_paths_fail(rt: HostRuntime) -> Result<(), Fail> {
    let words = ["paths", "Main", METHOD, "4", "x", "[]", "100"];
    assert!(rt; fails(&rt, &words, CALLS)?);
    Ok(())
}

#[test]
fn reads_and_writes_of_other_commands_fail(rt: HostRuntime) -> Result<(), Fail> {
    assert!(rt; fails(&rt, &["run", "Main", "3", "-"], CALLS)?);
    assert!(rt; fails(&rt, &["typestate", "Main", PROTOCOL, "100"], FILES)?);
    assert!(rt;
        fails(
            &rt,
            &["refined", "Main", METHOD, "4", "x", "2", "100"],
            CALLS
        )?
    );
    Ok(())
}

// Behind the program stands a certificate, or a batch of queries.
fn parts_fail<R: Threads + AllocGlobal + Sync>(rt: &R) -> Result<bool, AllocError> {
    let replayed = format!(in rt.alloc(); "{CALLS}%certificate\n{CERTIFICATE}")?;
    let batch = format!(in rt.alloc(); "{CALLS}%queries\n4 x {METHOD}\n9 x {METHOD}\n")?;
    Ok(
        fails(rt, &["replay", "Main", "100"], replayed.as_str())?
            && fails(rt, &["batch", "Main", "100"], batch.as_str())?,
    )
}

#[test]
fn reads_and_writes_of_what_is_cut_fail(rt: HostRuntime) -> Result<(), Fail> {
    assert!(rt; parts_fail(&rt)?);
    Ok(())
}
