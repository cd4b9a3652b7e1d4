//! Programs with many classes, fields, texts, labels, cases and handlers.
use super::answers::{ANY, is_answered};
use asked_text::METHOD;
use std::alloc::{AllocError, Global};
use std::marker::Sync;
use std::test::Fail;
use std::thread::Threads;

// So many classes, each below the one before; a call on the first one runs its method on an object of the last one.
fn parents(alloc: Global, count: u32) -> Result<String, AllocError> {
    let mut text = String::from_str(
        alloc,
        "class A { } class C0 { java.lang.Object m() { java.lang.Object o; o = new A; return o; } }\n",
    )?;
    for k in 1..count {
        let parent = k.saturating_sub(1);
        write!(text, "class C{k} extends C{parent} {{ }}\n")?;
    }
    let last = count.saturating_sub(1);
    write!(
        text,
        "class Main {{ static void main(java.lang.String[]) {{ C{last} r; java.lang.Object x; r = new C{last}; \
x = virtualinvoke r.<C0: java.lang.Object m()>(); return; }} }}\n"
    )?;
    Ok(text)
}

fn looks_up<R: Threads + AllocGlobal + Sync>(rt: &R) -> Result<bool, AllocError> {
    let text = parents(rt.alloc(), 5000)?;
    let words = ["points-to", "Main", METHOD, "2", "x", "3"];
    let reply = format!(in rt.alloc();
        "points-to {METHOD} 2 x\nsite <C0: java.lang.Object m()> 0 new A\nsites 1\ndemanded 3\n"
    )?;
    is_answered(rt, &words, text.as_str(), reply.as_str())
}

#[test]
fn a_class_has_5000_above_it(rt: HostRuntime) -> Result<(), Fail> {
    assert!(rt; looks_up(&rt)?);
    Ok(())
}

// An object that is stored into each of so many fields of a box, and loaded from the last one.
fn fields(alloc: Global, count: u32) -> Result<String, AllocError> {
    let mut text = String::from_str(alloc, "class A { } class Box {\n")?;
    for k in 0..count {
        write!(text, "java.lang.Object f{k};\n")?;
    }
    text.push_str(
        "} class Main { static void main(java.lang.String[]) { Box b; java.lang.Object a, x; b = new Box; a = new A;\n",
    )?;
    for k in 0..count {
        write!(text, "b.<Box: java.lang.Object f{k}> = a;\n")?;
    }
    let last = count.saturating_sub(1);
    write!(
        text,
        "x = b.<Box: java.lang.Object f{last}>; return; }} }}\n"
    )?;
    Ok(text)
}

// The box is demanded before each of the statements 1 to 5002 and the object before each of the statements 2 to 5001; both where they are made, and `x`.
fn loads<R: Threads + AllocGlobal + Sync>(rt: &R) -> Result<bool, AllocError> {
    let text = fields(rt.alloc(), 5000)?;
    let words = ["points-to", "Main", METHOD, "5003", "x", ANY];
    let reply = format!(in rt.alloc();
        "points-to {METHOD} 5003 x\nsite {METHOD} 1 new A\nsites 1\ndemanded 10005\n"
    )?;
    is_answered(rt, &words, text.as_str(), reply.as_str())
}

#[test]
fn a_class_has_5000_fields(rt: HostRuntime) -> Result<(), Fail> {
    assert!(rt; loads(&rt)?);
    Ok(())
}

// A switch with so many cases, behind each of which another text is held. The number of a text has five digits, so the order of numbers is that of the bytes.
fn switch(alloc: Global, count: u32) -> Result<String, AllocError> {
    let mut text = String::from_str(
        alloc,
        "class Main { static void main(java.lang.String[]) { java.lang.Object x; lookupswitch(0) {\n",
    )?;
    for k in 0..count {
        write!(text, "case {k}: goto l{k};\n")?;
    }
    text.push_str("default: goto end; };\n")?;
    for k in 0..count {
        let number = k.saturating_add(10_000);
        write!(text, "l{k}: x = \"t{number}\"; goto end;\n")?;
    }
    text.push_str("end: return; } }\n")?;
    Ok(text)
}

// All texts may be held at the end, which stands behind two statements a case.
fn texts(alloc: Global, count: u32) -> Result<String, AllocError> {
    let end = count.saturating_mul(2).saturating_add(1);
    let mut reply = format!(in alloc; "points-to {METHOD} {end} x\n")?;
    for k in 0..count {
        let number = k.saturating_add(10_000);
        write!(reply, "site text \"t{number}\"\n")?;
    }
    Ok(reply)
}

// Of each case the text is demanded and `x` before the jump; and `x` at the end and before the switch, from which the default leads to the end.
fn finds_texts<R: Threads + AllocGlobal + Sync>(rt: &R) -> Result<bool, AllocError> {
    let text = switch(rt.alloc(), 5000)?;
    let words = ["points-to", "Main", METHOD, "10001", "x", ANY];
    let mut reply = texts(rt.alloc(), 5000)?;
    reply.push_str("sites 5000\ndemanded 10002\n")?;
    is_answered(rt, &words, text.as_str(), reply.as_str())
}

#[test]
fn a_switch_has_5000_cases(rt: HostRuntime) -> Result<(), Fail> {
    assert!(rt; finds_texts(&rt)?);
    Ok(())
}

// So many calls, each with a handler of its own that leads to the same statement.
fn handlers(alloc: Global, count: u32) -> Result<String, AllocError> {
    let mut text = String::from_str(
        alloc,
        "class E extends java.lang.Exception { } class Main { static void f() { E e; e = new E; throw e; }
static void main(java.lang.String[]) { java.lang.Throwable t;\n",
    )?;
    for k in 0..count {
        write!(text, "l{k}: staticinvoke <Main: void f()>();\n")?;
    }
    write!(
        text,
        "l{count}: return; h: t := @caughtexception; return;\n"
    )?;
    for k in 0..count {
        let next = k.saturating_add(1);
        write!(
            text,
            "catch java.lang.Throwable from l{k} to l{next} with h;\n"
        )?;
    }
    text.push_str("} }\n")?;
    Ok(text)
}

// What is thrown is demanded at each call, and at the `throw`; so are `e` there, both objects that it may throw, what is caught, and `t`.
fn catches<R: Threads + AllocGlobal + Sync>(rt: &R) -> Result<bool, AllocError> {
    let text = handlers(rt.alloc(), 5000)?;
    let words = ["points-to", "Main", METHOD, "5002", "t", ANY];
    let reply = format!(in rt.alloc();
        "points-to {METHOD} 5002 t\nsite <Main: void f()> 0 new E\nsite <Main: void f()> 1 raise java.lang.NullPointerException\nsites 2\ndemanded 5006\n"
    )?;
    is_answered(rt, &words, text.as_str(), reply.as_str())
}

#[test]
fn a_method_has_5000_handlers(rt: HostRuntime) -> Result<(), Fail> {
    assert!(rt; catches(&rt)?);
    Ok(())
}
