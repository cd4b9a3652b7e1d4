//! Queries that demand many nodes, or pass many calls.
use super::answers::{ANY, is_answered, is_refused};
use asked_text::METHOD;
use std::alloc::{AllocError, Global};
use std::marker::Sync;
use std::test::Fail;
use std::thread::Threads;

/// An object, and so many copies of it, to and fro between two locals. Just before a statement with an odd index `x` was copied last, and before another one
/// `y`.
pub fn copies(alloc: Global, count: u32) -> Result<String, AllocError> {
    let mut text = String::from_str(
        alloc,
        "class A { } class Main { static void main(java.lang.String[]) { A x, y; x = new A;\n",
    )?;
    for k in 0..count {
        text.push_str(if k % 2 == 0 { "y = x;\n" } else { "x = y;\n" })?;
    }
    text.push_str("return; } }\n")?;
    Ok(text)
}

// The copy before each of the statements 1 to 19,999 is demanded, and the object.
fn demands_nodes<R: Threads + AllocGlobal + Sync>(rt: &R) -> Result<bool, AllocError> {
    let text = copies(rt.alloc(), 19_998)?;
    let most = ["points-to", "Main", METHOD, "19999", "x", "20000"];
    let less = ["points-to", "Main", METHOD, "19999", "x", "19999"];
    let reply = format!(in rt.alloc();
        "points-to {METHOD} 19999 x\nsite {METHOD} 0 new A\nsites 1\ndemanded 20000\n"
    )?;
    Ok(
        is_answered(rt, &most, text.as_str(), reply.as_str())?
            && is_refused(rt, &less, text.as_str(), 11, "refused OverBudget 19999\n")?,
    )
}

#[test]
fn a_query_demands_20000_nodes(rt: HostRuntime) -> Result<(), Fail> {
    assert!(rt; demands_nodes(&rt)?);
    Ok(())
}

/// So many methods, each of which passes what it is given to the next one and gives back what comes of it; the last one gives back what it is given.
pub fn calls(alloc: Global, count: u32) -> Result<String, AllocError> {
    let mut text = String::from_str(alloc, "class A { } class Main {\n")?;
    for k in 1..count {
        let from = k.saturating_sub(1);
        write!(
            text,
            "static java.lang.Object f{from}(java.lang.Object) {{ java.lang.Object p, q; p := @parameter0: java.lang.Object; \
q = staticinvoke <Main: java.lang.Object f{k}(java.lang.Object)>(p); return q; }}\n"
        )?;
    }
    let last = count.saturating_sub(1);
    write!(
        text,
        "static java.lang.Object f{last}(java.lang.Object) {{ java.lang.Object p; p := @parameter0: java.lang.Object; return p; }}\n\
static void main(java.lang.String[]) {{ java.lang.Object x, y; x = new A; y = staticinvoke <Main: java.lang.Object f0(java.lang.Object)>(x); return; }} }}\n"
    )?;
    Ok(text)
}

// Of each of 5,000 methods the parameter is demanded, the local that holds it at the end or at the call, and of all but the last what comes back; of `main`
// two locals and the object.
fn passes_calls<R: Threads + AllocGlobal + Sync>(rt: &R) -> Result<bool, AllocError> {
    let text = calls(rt.alloc(), 5000)?;
    let words = ["points-to", "Main", METHOD, "2", "y", ANY];
    let reply = format!(in rt.alloc();
        "points-to {METHOD} 2 y\nsite {METHOD} 0 new A\nsites 1\ndemanded 15002\n"
    )?;
    is_answered(rt, &words, text.as_str(), reply.as_str())
}

#[test]
fn a_query_passes_5000_methods(rt: HostRuntime) -> Result<(), Fail> {
    assert!(rt; passes_calls(&rt)?);
    Ok(())
}

// A call on an interface that so many classes implement, each with an object of its own.
fn implemented(alloc: Global, count: u32) -> Result<String, AllocError> {
    let mut text = String::from_str(alloc, "class A { } interface I { java.lang.Object m(); }\n")?;
    for k in 0..count {
        write!(
            text,
            "class C{k} implements I {{ java.lang.Object m() {{ java.lang.Object o; o = new A; return o; }} }}\n"
        )?;
    }
    text.push_str(
        "class Main { static void main(java.lang.String[]) { I r; java.lang.Object x; r = new C0; \
x = interfaceinvoke r.<I: java.lang.Object m()>(); return; } }\n",
    )?;
    Ok(text)
}

// The sites of all classes, in their order.
fn sites(alloc: Global, count: u32) -> Result<String, AllocError> {
    let mut reply = format!(in alloc; "points-to {METHOD} 2 x\n")?;
    for k in 0..count {
        write!(reply, "site <C{k}: java.lang.Object m()> 0 new A\n")?;
    }
    Ok(reply)
}

// Of each of 5,000 methods the object is demanded, and the local that is returned; and `x`.
fn finds_sites<R: Threads + AllocGlobal + Sync>(rt: &R) -> Result<bool, AllocError> {
    let text = implemented(rt.alloc(), 5000)?;
    let words = ["points-to", "Main", METHOD, "2", "x", ANY];
    let mut reply = sites(rt.alloc(), 5000)?;
    reply.push_str("sites 5000\ndemanded 10001\n")?;
    is_answered(rt, &words, text.as_str(), reply.as_str())
}

#[test]
fn a_call_has_5000_targets(rt: HostRuntime) -> Result<(), Fail> {
    assert!(rt; finds_sites(&rt)?);
    Ok(())
}
