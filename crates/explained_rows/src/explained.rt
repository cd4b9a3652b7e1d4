//! What `explain` prints is the reply of `points-to`, with a certificate behind each site. So the rows of `points-to` say all that is to be found here.
use asked_text::{SHARED, WORKED, reply_of, reply_text};
use std::alloc::{AllocError, Global};
use std::marker::Sync;
use std::test::Fail;
use std::thread::Threads;

/// What a row of `points-to` asks, and its reply.
#[derive(Clone, Copy)]
struct Asked<'a> {
    program: &'a str,
    class: &'a str,
    /// The method, the index and the local, with `;` between them.
    place: &'a str,
    limit: &'a str,
    /// The lines of the reply behind the first word, with `~` behind each.
    told: &'a str,
}

// What the row asks, if it is one of `points-to` that isn't refused.
fn asked_in<'a>(program: &'a str, row: &'a str) -> Option<Asked<'a>> {
    let (words, reply) = row.split_once(" | ")?;
    let told = reply.strip_prefix("points-to ")?;
    let (class, place) = words.strip_prefix("points-to;")?.split_once(';')?;
    let (place, limit) = place.rsplit_once(';')?;
    Some(Asked {
        program,
        class,
        place,
        limit,
        told,
    })
}

// Whether the replayer accepts the certificate behind the program, for the site that this line tells.
fn is_accepted<R: Threads + AllocGlobal + Sync>(
    rt: &R,
    asked: Asked<'_>,
    site: &str,
    certificate: &str,
) -> Result<bool, AllocError> {
    let Some((place, _)) = asked.told.split_once('~') else {
        return Ok(false);
    };
    let Some((_, demanded)) = asked.told.trim_end_matches('~').rsplit_once('~') else {
        return Ok(false);
    };
    let words = format!(in rt.alloc(); "replay;{};{}", asked.class, asked.limit)?;
    let text = format!(in rt.alloc(); "{}\n%certificate\n{certificate}", asked.program)?;
    let place = reply_text(rt.alloc(), place)?;
    let wanted = format!(in rt.alloc(); "accepted {place}\n{site}\n{demanded}\n")?;
    let (number, reply) = reply_of(rt, words.as_str(), text.as_str())?;
    Ok(number == 0 && reply.as_slice() == wanted.as_bytes())
}

// The lines of a certificate, which stand behind its length and their number.
fn certificate(
    alloc: Global,
    lines: &mut std::str::Lines<'_>,
) -> Result<Option<String>, AllocError> {
    if !lines.next().is_some_and(|line| line.starts_with("length ")) {
        return Ok(None);
    }
    let Some(count) = lines.next().and_then(|line| line
        .strip_prefix("certificate ")?
        .parse::<u32>()
        .ok())
    else {
        return Ok(None);
    };
    let mut text = String::new(alloc);
    // The query comes first, and isn't counted.
    for _ in 0..=count {
        let Some(line) = lines.next() else {
            return Ok(None);
        };
        text.push_str(line)?;
        text.push('\n')?;
    }
    Ok(Some(text))
}

// How many certificates are accepted, where the explanation has the sites of the row, each with one that is.
fn accepted_in<R: Threads + AllocGlobal + Sync>(
    rt: &R,
    asked: Asked<'_>,
) -> Result<Option<u32>, AllocError> {
    let words = format!(in rt.alloc(); "explain;{};{};{}", asked.class, asked.place, asked.limit)?;
    let (number, reply) = reply_of(rt, words.as_str(), asked.program)?;
    let Ok(reply) = std::str::from_utf8(reply.as_slice()) else {
        return Ok(None);
    };
    let Some(reply) = reply.strip_prefix("explain ") else {
        return Ok(None);
    };
    let told = reply_text(rt.alloc(), asked.told)?;
    let mut lines = reply.lines();
    let mut accepted: u32 = 0;
    for wanted in told.as_str().lines() {
        if lines.next() != Some(wanted) {
            return Ok(None);
        }
        if wanted.starts_with("site ") {
            let Some(certificate) = certificate(rt.alloc(), &mut lines)? else {
                return Ok(None);
            };
            if !is_accepted(rt, asked, wanted, certificate.as_str())? {
                return Ok(None);
            }
            accepted = accepted.saturating_add(1);
        }
    }
    Ok((number == 0 && lines.next().is_none()).then_some(accepted))
}

// How many are accepted of all rows of the programs; none where a row isn't answered so.
fn accepted<R: Threads + AllocGlobal + Sync>(
    rt: &R,
    programs: &[(&'static str, &'static str)],
) -> Result<Option<u32>, AllocError> {
    let mut accepted: u32 = 0;
    for (program, rows) in programs {
        for row in rows.lines() {
            let Some(asked) = asked_in(program, row) else {
                continue;
            };
            let Some(more) = accepted_in(rt, asked)? else {
                return Ok(None);
            };
            accepted = accepted.saturating_add(more);
        }
    }
    Ok(Some(accepted))
}

#[test]
fn replays_what_it_explains(rt: HostRuntime) -> Result<(), Fail> {
    assert_eq!(rt; accepted(&rt, &WORKED)?, Some(18));
    assert_eq!(rt; accepted(&rt, &SHARED)?, Some(1));
    Ok(())
}
