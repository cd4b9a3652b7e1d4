//! The largest demo, batch, path and protocol, and as many rounds as there may be.
use super::answers::{ANY, is_answered};
use super::queries::copies;
use asked_text::METHOD;
use std::alloc::{AllocError, Global};
use std::marker::Sync;
use std::test::Fail;
use std::thread::Threads;

// Of each box four statements, and eight of the two methods.
#[test]
fn the_demo_has_400_boxes(rt: HostRuntime) -> Result<(), Fail> {
    let reply = "demo 400\nstatements 1608\nsites 1\ndemanded 2410\n";
    assert!(rt; is_answered(&rt, &["demo", "400"], "", reply)?);
    Ok(())
}

// The local that was copied last just before a statement.
fn copied(index: u32) -> &'static str {
    if index % 2 == 0 { "y" } else { "x" }
}

// The program of a thousand copies, and a query of each.
fn asked(alloc: Global) -> Result<String, AllocError> {
    let mut text = copies(alloc, 1000)?;
    text.push_str("%queries\n")?;
    for index in 1..1001u32 {
        write!(text, "{index} {} {METHOD}\n", copied(index))?;
    }
    Ok(text)
}

// Each query demands the copies up to its own, and the object.
fn told(alloc: Global) -> Result<String, AllocError> {
    let mut reply = String::from_str(alloc, "batch 1000\n")?;
    for index in 1..1001u32 {
        let demanded = index.saturating_add(1);
        write!(
            reply,
            "points-to {METHOD} {index} {}\nsite {METHOD} 0 new A\nsites 1\ndemanded {demanded}\n",
            copied(index)
        )?;
    }
    Ok(reply)
}

fn answers_batch<R: Threads + AllocGlobal + Sync>(rt: &R) -> Result<bool, AllocError> {
    let text = asked(rt.alloc())?;
    let reply = told(rt.alloc())?;
    is_answered(rt, &["batch", "Main", ANY], text.as_str(), reply.as_str())
}

#[test]
fn a_batch_has_1000_queries(rt: HostRuntime) -> Result<(), Fail> {
    assert!(rt; answers_batch(&rt)?);
    Ok(())
}

// Four boxes, each in the one before, and an object in the last one.
const BOXES: &str =
    "class A { } class Box { Box n; java.lang.Object v; } class Main { static void main(java.lang.String[]) { Box a, b, c, d; A o;
a = new Box; b = new Box; c = new Box; d = new Box; o = new A; a.<Box: Box n> = b; b.<Box: Box n> = c; c.<Box: Box n> = d;
d.<Box: java.lang.Object v> = o; return; } }";

// The first box is demanded ten times, the next three six times each, and the object five times: from where it is made to where it is used last.
fn follows<R: Threads + AllocGlobal + Sync>(rt: &R) -> Result<bool, AllocError> {
    let path = "Box:n,Box:n,Box:n,Box:v";
    let words = ["paths", "Main", METHOD, "9", "a", path, ANY];
    let reply = format!(in rt.alloc();
        "paths {METHOD} 9 a {path}\nsite {METHOD} 4 new A\nsites 1\ndemanded 33\n"
    )?;
    is_answered(rt, &words, BOXES, reply.as_str())
}

#[test]
fn a_path_has_four_fields(rt: HostRuntime) -> Result<(), Fail> {
    assert!(rt; follows(&rt)?);
    Ok(())
}

// Five calls on an interface, each on what the one before gives. Of what its receiver may be, the first call alone is certain in the program that is read:
// each round makes one more certain.
const CALLS: &str =
    "interface I { I m(); } class C implements I { I m() { I o; o = new C; return o; } }
class D implements I { I m() { I o; o = new D; return o; } } class Main { static void main(java.lang.String[]) { I a, b, c, d, e, f; a = new C;
b = interfaceinvoke a.<I: I m()>(); c = interfaceinvoke b.<I: I m()>(); d = interfaceinvoke c.<I: I m()>(); e = interfaceinvoke d.<I: I m()>();
f = interfaceinvoke e.<I: I m()>(); return; } }";

// What is found at the end after so many rounds, and how many targets are gone.
fn is_refined<R: Threads + AllocGlobal + Sync>(
    rt: &R,
    rounds: &str,
    narrowed: u32,
    found: &str,
) -> Result<bool, AllocError> {
    let words = ["refined", "Main", METHOD, "6", "f", rounds, ANY];
    let reply = format!(in rt.alloc(); "refined {METHOD} 6 f\nnarrowed {narrowed}\n{found}")?;
    is_answered(rt, &words, CALLS, reply.as_str())
}

const BOTH: &str = "site <C: I m()> 0 new C\nsite <D: I m()> 0 new D\nsites 2\ndemanded 5\n";

const ONE: &str = "site <C: I m()> 0 new C\nsites 1\ndemanded 3\n";

// From the fifth round on nothing changes.
const ROUNDS: [(&str, u32, &str); 9] = [
    ("0", 0, BOTH),
    ("1", 1, BOTH),
    ("2", 2, BOTH),
    ("3", 3, BOTH),
    ("4", 4, BOTH),
    ("5", 5, ONE),
    ("6", 5, ONE),
    ("7", 5, ONE),
    ("8", 5, ONE),
];

#[test]
fn rounds_go_on_until_nothing_changes(rt: HostRuntime) -> Result<(), Fail> {
    for (rounds, narrowed, found) in ROUNDS {
        assert!(rt; is_refined(&rt, rounds, narrowed, found)?, "{rounds}");
    }
    Ok(())
}

// A file that is read so often.
fn reads(alloc: Global, count: u32) -> Result<String, AllocError> {
    let mut text = String::from_str(
        alloc,
        "class F { void read() { return; } } class Main { static void main(java.lang.String[]) { F f; f = new F;\n",
    )?;
    for _ in 0..count {
        text.push_str("virtualinvoke f.<F: void read()>();\n")?;
    }
    text.push_str("return; } }\n")?;
    Ok(text)
}

// Sixteen states, from each of which but the last one a read leads to the next.
fn protocol(alloc: Global) -> Result<String, AllocError> {
    let mut word = String::from_str(alloc, "F s0")?;
    for k in 0..15u32 {
        let next = k.saturating_add(1);
        write!(word, ";s{k} read s{next}")?;
    }
    Ok(word)
}

// The file is demanded at each read, where it is made, and in the method that reads.
fn tracks<R: Threads + AllocGlobal + Sync>(rt: &R) -> Result<bool, AllocError> {
    let text = reads(rt.alloc(), 500)?;
    let open = protocol(rt.alloc())?;
    let round = format!(in rt.alloc(); "{open};s15 read s0")?;
    let safe = "typestate Main F\nverdict safe\ndemanded 502\n";
    // The sixteenth read comes in the last state.
    let wrong = format!(in rt.alloc();
        "typestate Main F\nunsafe {METHOD} 0 new F at {METHOD} 16 state s15 event read\nverdict unsafe 1\ndemanded 502\n"
    )?;
    let closed = ["typestate", "Main", round.as_str(), ANY];
    let ended = ["typestate", "Main", open.as_str(), ANY];
    Ok(
        is_answered(rt, &closed, text.as_str(), safe)?
            && is_answered(rt, &ended, text.as_str(), wrong.as_str())?,
    )
}

#[test]
fn a_protocol_has_16_states_and_500_calls(rt: HostRuntime) -> Result<(), Fail> {
    assert!(rt; tracks(&rt)?);
    Ok(())
}
