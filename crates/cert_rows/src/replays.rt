//! Certificates of whole programs, with what a replay says of each.
ghost use Rattle.std.specs.Prelude.{◌+◌, ◌^◌, ◌<◌, length};

use super::programs::{BOX, NESTED, STATIC, TEXT, TWO_CALLS};
use cert_replay::{Certificate, ReplayError, read_cert, replay};
use demand_set::Reach;
use link_program::Linked;
use linked_text::{Rows, first_wrong};
use lists::NoMemory;
use program_demand::demand;
use spds_nodes::is_node;
use std::alloc::Global;
use std::test::Fail;

// Where an object is passed into a call and comes back.
const THROUGH_A_CALL: &str = "query 1.4.l2
start F 1.0.new
flow F 1 1.1.l0
flow F 2 1.2.l0
flow F 3 0.0.p0
flow F 4 0.1.l0
flow F 5 1.3.l2
flow F 6 1.4.l2
start C 1.0.new
flow C 8 1.1.l0
flow C 9 1.2.l0
push C 10 0.0.p0
flow C 11 0.1.l0
link C 10 0.0.p0
pop C 12 13 1.3.l2
flow C 14 1.4.l2
claim 7 15";

// Where it is stored into a field and loaded.
const THROUGH_A_FIELD: &str = "query 0.4.l2
start F 0.1.new
flow F 1 0.2.l1
start C 0.1.new
flow C 3 0.2.l1
start F 0.0.new
flow F 5 0.1.l0
flow F 6 0.2.l0
start C 0.0.new
flow C 8 0.1.l0
flow C 9 0.2.l0
shared 4 10 1.3
meet 11 7
push F 2 12 0.0.new
link F 2 12 0.0.new
flow F 13 0.1.l0
flow F 15 0.2.l0
flow F 16 0.3.l0
pop F 17 14 0.4.l2
start C 4 12 0.0.new
flow C 19 0.1.l0
flow C 20 0.2.l0
flow C 21 0.3.l0
flow C 22 0.4.l2
claim 18 23";

// Where it is returned by a method that it isn't passed to.
const OUT_OF_A_CALL: &str = "query 1.1.l0
start F 0.0.t0
flow F 1 1.1.l0
start C 0.0.t0
base C 3 1.1.l0
claim 2 4";

// Where it goes through a static field.
const THROUGH_A_STATIC: &str = "query 0.3.l1
start F 0.0.new
flow F 1 0.1.l0
flow F 2 0.3.l1
start C 0.0.new
flow C 4 0.1.l0
start C 5 0.3.l1
claim 3 6";

// Where it is an inner array of another.
const OUT_OF_AN_ARRAY: &str = "query 0.2.l1
start F 0.0.n1
start C 0.0.n1
start F 0.0.new
start C 0.0.new
shared 2 4 1.3
meet 5 3
push F 1 6 0.0.new
link F 1 6 0.0.new
flow F 7 0.1.l0
pop F 9 8 0.2.l1
start C 2 6 0.0.new
flow C 11 0.1.l0
flow C 12 0.2.l1
claim 10 13";

// A line put in the place of the one with the number, from 1, so that this one is rejected: each premise of each kind of line, taken away.
const OF_A_CALL: &str = "as it is
# A node that isn't a start node, or isn't demanded.
1 start F 1.1.l0
8 start C 1.2.new
# A line that gave nothing before, or gave it of the other side.
2 flow F 0 1.1.l0
2 flow F 2 1.1.l0
2 flow F 4294967295 1.1.l0
9 flow C 1 1.1.l0
# No edge, or one that doesn't keep the words.
3 flow F 2 1.3.l0
11 flow C 10 0.0.p0
15 flow C 12 1.4.l2
# No call, or one that is another.
10 push C 9 1.2.l0
13 link C 9 0.0.p0
14 pop C 12 14 1.3.l2
14 pop C 12 11 1.3.l2
14 pop C 12 13 1.4.l3
14 base C 12 1.3.l2";

const OF_A_FIELD: &str = "as it is
# No edge, or one that doesn't keep the words.
18 flow F 17 0.4.l2
# A string that isn't one of the method, or under which only one of them is.
11 shared 4 10 -
11 shared 4 10 1.3,1.3
11 shared 4,10 10 1.3
11 shared 4 7 1.3
# Not the base, or not at the store's node.
12 meet 11 6
12 meet 11 2
12 meet 10 7
# Not at the argument, or the base doesn't start there.
13 push F 1 12 0.0.new
13 push F 2 12 0.1.new
14 link F 2 11 0.0.new
19 start C 10 12 0.0.new
# Not at the target.
24 claim 17 23";

const OF_A_RETURN: &str = "as it is
# No edge, or one that doesn't keep the words.
4 flow C 3 1.1.l0";

const OF_A_STATIC: &str = "as it is
# No edge, or one that doesn't keep the words.
6 flow C 5 0.3.l1";

// Whole certificates, with a semicolon between two lines, and the line that is rejected: no line, no claim at the end, and a node that isn't asked for.
const REJECTED: &str = "1 query 1.1.l0
2 query 1.1.l0;start F 0.0.t0
5 query 1.1.l0;start F 0.0.t0;flow F 1 1.1.l0;start C 0.0.t0;base C 3 1.1.l0;claim 1 3
1 query 1.1.l0;claim 4294967295 1
1 query 1.0.l0;start F 0.0.t0";

/// What is said of a certificate.
#[derive(Clone, Copy, Debug, PartialEq, Eq)]
enum Said {
    Accepted,
    Rejected(u32),
    /// It isn't one, or there was no memory.
    Nothing,
}

// What is said of a certificate of a program.
fn said_of(alloc: Global, linked: &Linked, certificate: &Certificate) -> Said
    requires { length certificate.now.lines + 1 < 2 ^ 32 }
{
    let target = certificate.target;
    if !is_node(linked, target) {
        return Said::Nothing;
    }
    let Ok(demanded) = demand(alloc, linked, &[target], Reach::Plain, u32::MAX) else {
        return Said::Nothing;
    };
    match replay(alloc, linked, &demanded, certificate) {
        Ok(_) => Said::Accepted,
        Err(ReplayError::Rejected { line }) => Said::Rejected(line),
        Err(ReplayError::NoMemory) => Said::Nothing,
    }
}

// The same of its text.
fn said_of_text(alloc: Global, linked: &Linked, text: &str) -> Said {
    match read_cert(alloc, text.as_bytes()) {
        Ok(certificate) => said_of(alloc, linked, &certificate),
        Err(_) => Said::Nothing,
    }
}

// The number and the text of a row.
fn parts(row: &str) -> Option<(u32, &str)> {
    let (number, text) = row.split_once(' ')?;
    Some((number.parse::<u32>().ok()?, text))
}

// The certificate with the line put in the place of the one with the number.
fn changed(alloc: Global, certificate: &str, number: u32, put: &str) -> Result<String, NoMemory> {
    let mut text = String::new(alloc);
    let mut at: u32 = 0;
    for line in certificate.lines() {
        text.push_str(if at == number { put } else { line })?;
        text.push('\n')?;
        at = at.saturating_add(1);
    }
    Ok(text)
}

// A certificate that is accepted, with changes of a line.
#[derive(Clone, Copy)]
struct Changes {
    certificate: &'static str,
}

impl Rows for Changes {
    fn is_right(&self, alloc: Global, linked: &Linked, row: &str) -> Result<bool, NoMemory> {
        if row == "as it is" {
            return Ok(said_of_text(alloc, linked, self.certificate) == Said::Accepted);
        }
        let Some((number, put)) = parts(row) else {
            return Ok(false);
        };
        let text = changed(alloc, self.certificate, number, put)?;
        Ok(said_of_text(alloc, linked, text.as_str()) == Said::Rejected(number))
    }
}

#[test]
fn accepted_and_each_premise(rt: HostRuntime) -> Result<(), Fail> {
    for (text, certificate, rows) in [
        (TWO_CALLS, THROUGH_A_CALL, OF_A_CALL),
        (BOX, THROUGH_A_FIELD, OF_A_FIELD),
        (TEXT, OUT_OF_A_CALL, OF_A_RETURN),
        (STATIC, THROUGH_A_STATIC, OF_A_STATIC),
        (NESTED, OUT_OF_AN_ARRAY, "as it is"),
    ] {
        let changes = Changes { certificate };
        assert_eq!(rt; first_wrong(rt.alloc(), text, &changes, rows)?, None);
    }
    Ok(())
}

struct Whole;

impl Rows for Whole {
    fn is_right(&self, alloc: Global, linked: &Linked, row: &str) -> Result<bool, NoMemory> {
        let Some((number, text)) = parts(row) else {
            return Ok(false);
        };
        let lines = text.replace(alloc, ";", "\n")?;
        Ok(said_of_text(alloc, linked, lines.as_str()) == Said::Rejected(number))
    }
}

#[test]
fn others(rt: HostRuntime) -> Result<(), Fail> {
    assert_eq!(rt; first_wrong(rt.alloc(), TEXT, &Whole, REJECTED)?, None);
    Ok(())
}
