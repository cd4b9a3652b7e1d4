//! The methods that are linked of small programs, and the first refusals of others, by hand.
use compiled_text::AS_COMPILED;
use link_program::Linked;
use link_rules::{Arg, Code};
use linked_text::{Rows, first_wrong, told_of};
use lists::NoMemory;
use std::alloc::Global;
use std::test::Fail;

// Whether these lines are told of a text, with `; ` between two.
fn is_told(alloc: Global, text: &str, wanted: &str) -> Result<bool, NoMemory> {
    let told = told_of(alloc, text)?;
    let mut lines = told.as_str().lines();
    for line in wanted.split("; ") {
        if lines.next() != Some(line) {
            return Ok(false);
        }
    }
    Ok(lines.next().is_none())
}

const INHERITED: &str =
    "interface I { java.lang.Object m(); } class A { } class B { } class Z { java.lang.Object m() { java.lang.Object o; o = new A; return o; } } \
class C extends Z implements I { } class D implements I { java.lang.Object m() { java.lang.Object o; o = new B; return o; } } \
class U { java.lang.Object m() { return null; } } class Main { static void main(java.lang.String[]) { I r; java.lang.Object x; r = new C; \
x = interfaceinvoke r.<I: java.lang.Object m()>(); return; } }";

const RUN_BY_INHERITED: &str =
    "<Z: java.lang.Object m()>; <D: java.lang.Object m()>; <Main: void main(java.lang.String[])>; root";

// An interface's call runs what a class inherits and what another one declares; nothing else is reached.
#[test]
fn reaches_what_calls_may_run(rt: HostRuntime) -> Result<(), Fail> {
    assert!(rt; is_told(rt.alloc(), INHERITED, RUN_BY_INHERITED)?);
    Ok(())
}

fn has_initializer(alloc: Global, text: &str) -> Result<bool, NoMemory> {
    let told = told_of(alloc, text)?;
    let lines = told.as_str();
    Ok(
        lines.starts_with("<Main: void main(java.lang.String[])>\n")
            && lines.contains("<java.lang.System: void <clinit>()>\n"),
    )
}

// A class in the usual layout, with the prelude.
#[test]
fn links_with_the_prelude(rt: HostRuntime) -> Result<(), Fail> {
    assert!(rt; has_initializer(rt.alloc(), AS_COMPILED)?);
    Ok(())
}

// The first refusals of programs that the rules of the whole program refuse, and of one whose `main` has no statement. A row has a text, and behind ` => ` what is
// told of it.
const REFUSALS: &str =
    "class A { } class A { } class Main { static void main(java.lang.String[]) { return; } } => 1 A 0
class A extends B { } class Main { static void main(java.lang.String[]) { return; } } => 2 A 0
class A extends B { } class B extends A { } class Main { static void main(java.lang.String[]) { return; } } => 3 A 0
class Main { } => 5  0
class Main { static void main(java.lang.String[]) { } } => 9 <Main: void main(java.lang.String[])> 0";

fn is_right(alloc: Global, row: &str) -> Result<bool, NoMemory> {
    match row.split_once(" => ") {
        Some((text, wanted)) => is_told(alloc, text, wanted),
        None => Ok(false),
    }
}

// The first row that isn't right.
fn first_refusal_wrong(
    alloc: Global,
    rows: &'static str,
) -> Result<Option<&'static str>, NoMemory> {
    for row in rows.lines() {
        if !is_right(alloc, row)? {
            return Ok(Some(row));
        }
    }
    Ok(None)
}

#[test]
fn refuses(rt: HostRuntime) -> Result<(), Fail> {
    assert_eq!(rt; first_refusal_wrong(rt.alloc(), REFUSALS)?, None);
    Ok(())
}

// Classes for the bodies below. None of them is refused by itself, since no run reaches their methods.
const CLASSES: &str =
    "class A { static void f() { return; } static native void g(); } abstract class B { abstract void m(); } class D { native void m(); } \
class java.lang.Class { static void f() { return; } } class java.lang.Thread { static void f() { return; } } interface F { void m() { return; } } \
interface G { void m() { return; } } class H implements F, G { }";

// Bodies of `main`, each of which is refused by one rule. A row has the number of the rule and an index, and behind ` | ` the body.
const BODIES: &str = "6 0 | int x, x; return;
7 1 | l: nop; l: return;
8 1 | nop; goto q;
8 2 | a: nop; b: return; catch java.lang.Error from a to q with b;
9 1 | nop; nop;
9 1 | a: return; b: catch java.lang.Error from a to b with b;
10 1 | nop; x = null; return;
11 0 | Main x; x := @this: Main; return;
11 0 | int x; x := @parameter1: int; return;
12 1 | nop; dynamicinvoke f; return;
13 0 | staticinvoke <java.lang.Class: void f()>(); return;
14 0 | java.lang.Thread x; x = new java.lang.Thread; return;
14 0 | staticinvoke <java.lang.Thread: void f()>(); return;
15 1 | int x; nop; ret x; return;
16 0 | int[][] x; x = newmultiarray (int)[][3]; return;
17 0 | A x; x = new Q; return;
17 2 | a: nop; return; catch Q from a to a with a;
18 0 | int x; x = <A: int f>; return;
19 0 | B x; x = new B; return;
20 0 | staticinvoke <A: void h()>(); return;
20 0 | B x; specialinvoke x.<B: void m()>(); return;
21 0 | staticinvoke <A: void f()>(null); return;
21 0 | A x; x = staticinvoke <A: void f()>(); return;
22 0 | staticinvoke <A: void g()>(); return;
22 0 | D x; virtualinvoke x.<D: void m()>(); return;
23 1 | H x; nop; virtualinvoke x.<H: void m()>(); return;";

fn is_body_refused(alloc: Global, row: &str) -> Result<bool, NoMemory> {
    let Some((told, body)) = row.split_once(" | ") else {
        return Ok(false);
    };
    let Some((kind, index)) = told.split_once(' ') else {
        return Ok(false);
    };
    let text = format!(in alloc;
        "{CLASSES} class Main {{ static void main(java.lang.String[]) {{ {body} }} }}"
    )?;
    let wanted = format!(in alloc; "{kind} <Main: void main(java.lang.String[])> {index}")?;
    is_told(alloc, text.as_str(), wanted.as_str())
}

// The first body that is refused otherwise.
fn first_body_wrong(alloc: Global) -> Result<Option<&'static str>, NoMemory> {
    for row in BODIES.lines() {
        if !is_body_refused(alloc, row)? {
            return Ok(Some(row));
        }
    }
    Ok(None)
}

#[test]
fn refuses_by_each_rule(rt: HostRuntime) -> Result<(), Fail> {
    assert_eq!(rt; first_body_wrong(rt.alloc())?, None);
    Ok(())
}

// Interfaces, of which some have methods with bodies.
const INTERFACES: &str =
    "class A { } class B { } interface I { java.lang.Object m() { java.lang.Object o; o = new A; return o; } \
static void s() { return; } } interface J implements I { java.lang.Object m() { java.lang.Object o; o = new B; return o; } } \
interface K { java.lang.Object m() { return null; } } interface L implements I { java.lang.Object m(); }";

// Whether that is told of a `main` with this call, between these interfaces and classes.
fn is_told_of_call(
    alloc: Global,
    classes: &str,
    call: &str,
    wanted: &str,
) -> Result<bool, NoMemory> {
    let text = format!(in alloc;
        "{INTERFACES} {classes} class Main {{ static void main(java.lang.String[]) {{ C r; {call}; return; }} }}"
    )?;
    is_told(alloc, text.as_str(), wanted)
}

fn is_call_right(alloc: Global, row: &str) -> Result<bool, NoMemory> {
    let Some((asked, wanted)) = row.split_once(" => ") else {
        return Ok(false);
    };
    match asked.split_once(" | ") {
        Some((classes, call)) => is_told_of_call(alloc, classes, call, wanted),
        None => Ok(false),
    }
}

// The first row that isn't right.
fn first_call_wrong(alloc: Global, rows: &'static str) -> Result<Option<&'static str>, NoMemory> {
    for row in rows.lines() {
        if !is_call_right(alloc, row)? {
            return Ok(Some(row));
        }
    }
    Ok(None)
}

// A method of an interface runs where the classes have none: the lowest, if it has a body. A row has classes, a call, and what is told of them.
const RUN: &str =
    "class C implements I, J { } | interfaceinvoke r.<I: java.lang.Object m()>() => <J: java.lang.Object m()>; <Main: void main(java.lang.String[])>; root
class C implements J, I { } | specialinvoke r.<C: java.lang.Object m()>() => <J: java.lang.Object m()>; <Main: void main(java.lang.String[])>; root
class C implements I, L { } | interfaceinvoke r.<I: java.lang.Object m()>() => <Main: void main(java.lang.String[])>; root
class C implements L, J { } | virtualinvoke r.<C: java.lang.Object m()>() => <J: java.lang.Object m()>; <Main: void main(java.lang.String[])>; root
class C implements I, K { java.lang.Object m() { return null; } } | interfaceinvoke r.<I: java.lang.Object m()>() => <C: java.lang.Object m()>; <Main: void main(java.lang.String[])>; root
abstract class D implements I, K { } class C extends D { java.lang.Object m() { return null; } } | virtualinvoke r.<D: java.lang.Object m()>() => <C: java.lang.Object m()>; <Main: void main(java.lang.String[])>; root";

#[test]
fn runs_methods_of_interfaces(rt: HostRuntime) -> Result<(), Fail> {
    assert_eq!(rt; first_call_wrong(rt.alloc(), RUN)?, None);
    Ok(())
}

// Two such methods, of which none is below the other, are refused where a call may look one up. A static call finds none of an interface.
const SEVERAL: &str =
    "class C implements I, K { } | interfaceinvoke r.<I: java.lang.Object m()>() => 23 <Main: void main(java.lang.String[])> 0
class D implements K, J { } class C extends D { java.lang.Object m() { return null; } } | virtualinvoke r.<D: java.lang.Object m()>() => 23 <Main: void main(java.lang.String[])> 0
abstract class D implements I, K { } class C extends D { java.lang.Object m() { return null; } } | specialinvoke r.<D: java.lang.Object m()>() => 23 <Main: void main(java.lang.String[])> 0
class C implements L { } | specialinvoke r.<C: java.lang.Object m()>() => 20 <Main: void main(java.lang.String[])> 0
class C implements I { } | staticinvoke <C: void s()>() => 20 <Main: void main(java.lang.String[])> 0";

#[test]
fn refuses_several_methods_of_interfaces(rt: HostRuntime) -> Result<(), Fail> {
    assert_eq!(rt; first_call_wrong(rt.alloc(), SEVERAL)?, None);
    Ok(())
}

const OWN_SYSTEM: &str = "class java.lang.System { static void m() { return; } } \
class Main { static void main(java.lang.String[]) { staticinvoke <java.lang.System: void m()>(); return; } }";

const RUN_BY_OWN_SYSTEM: &str =
    "<java.lang.System: void m()>; <Main: void main(java.lang.String[])>; root";

// A class of the input takes the place of the prelude's.
#[test]
fn the_prelude_s_class_gives_way(rt: HostRuntime) -> Result<(), Fail> {
    assert!(rt; is_told(rt.alloc(), OWN_SYSTEM, RUN_BY_OWN_SYSTEM)?);
    Ok(())
}

const CONSTANTS: &str =
    "class Main { static void main(java.lang.String[]) { java.lang.Object x; x = \"a\"; x = \"LMain;\"; x = \"a\"; x = \"\"; x = \"LMain;\"; \
x = class \"LMain;\"; return; } }";

const USES: [Arg; 6] = [
    Arg::Text(0),
    Arg::Text(1),
    Arg::Text(0),
    Arg::Text(2),
    Arg::Text(1),
    Arg::Class(0),
];

fn copies(code: &Code, wanted: Arg) -> bool {
    match code {
        Code::Copy { arg, .. } => *arg == wanted,
        _ => false,
    }
}

// Whether the first method copies just these, one after the other, and then returns.
fn uses_constants(linked: &Linked) -> bool {
    if linked.methods() == 0 {
        return false;
    }
    let code = linked.code(0);
    code.len() == USES.len() + 1
        && code
            .iter()
            .zip(USES)
            .all(|(code, wanted)| copies(code, wanted))
}

struct Numbers;

impl Rows for Numbers {
    fn is_right(&self, _: Global, linked: &Linked, _: &str) -> Result<bool, NoMemory> {
        Ok(uses_constants(linked))
    }
}

// Numbers have numbers in the order of first use, texts and classes each from 0.
#[test]
fn constants(rt: HostRuntime) -> Result<(), Fail> {
    assert_eq!(rt;
        first_wrong(rt.alloc(), CONSTANTS, &Numbers, "numbers of constants")?,
        None
    );
    Ok(())
}
