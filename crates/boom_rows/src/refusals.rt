//! Programs that linking refuses, one for each kind and for each two kinds that may stand together, with the replies found by hand. A row has the
//! kinds that stand in it by their numbers, what is told, and the text.
use asked_text::{SMALL, is_reply};
use std::alloc::{AllocError, Global};
use std::marker::Sync;
use std::test::Fail;
use std::thread::Threads;

// Classes around the bodies of `BODIES`. None of them is refused by itself, since no run reaches their methods.
const CLASSES: &str = "class A { static void f() { return; } static native void g(); }
abstract class B { abstract void m(); }
class C { }
class D extends C { native void m(); }
abstract class E extends java.lang.Thread { }
class java.lang.Class { static void f() { return; } static native void g(); static void k(int) { return; } }
class java.lang.Thread { static void f() { return; } static native void g(); }
class java.lang.reflect.R extends java.lang.Thread { static void f() { return; } }
interface F { void m() { return; } }
interface G { void m() { return; } static void s() { return; } }
class N { }
class H extends N implements F, G { }
class P implements F { native void m(); }
class T extends java.lang.Thread implements F, G { }
class java.lang.reflect.S implements F, G { }
";

// Bodies of `main`. Where two kinds stand at one index, the one with the lesser number is told.
const BODIES: &str = "6 | DuplicateLocal 0 | int x, x; return;
7 | DuplicateLabel 1 | l: nop; l: return;
8 | UnknownLabel 1 | nop; goto q;
8 | UnknownLabel 0 | int x; lookupswitch(x) { case 1: goto q; default: goto l; }; l: return;
8 | UnknownLabel 2 | a: nop; b: return; catch java.lang.Error from a to q with b;
9 | FallsOff 1 | nop; nop;
9 | FallsOff 0 | goto l; l:
9 | FallsOff 0 |
9 | FallsOff 1 | a: return; b: catch java.lang.Error from a to b with b;
10 | UnknownLocal 1 | nop; x = null; return;
10 | UnknownLocal 0 | A x; x = y; return;
11 | BadIdentity 0 | Main x; x := @this: Main; return;
11 | BadIdentity 0 | int x; x := @parameter1: int; return;
12 | DynamicInvoke 1 | nop; dynamicinvoke f; return;
13 | Reflection 0 | staticinvoke <java.lang.Class: void f()>(); return;
14 | Threads 0 | java.lang.Thread x; x = new java.lang.Thread; return;
14 | Threads 0 | staticinvoke <java.lang.Thread: void f()>(); return;
15 | RetStatement 1 | int x; nop; ret x; return;
15 | RetStatement 0 | ret x; return;
16 | NestedArray 0 | int[][] x; x = newmultiarray (int)[][3]; return;
17 | UnknownClass 0 | A x; x = new Q; return;
17 | UnknownClass 1 | int x; nop; x = <Q: int f>; return;
17 | UnknownClass 0 | staticinvoke <Q: void f()>(); return;
17 | UnknownClass 2 | a: nop; return; catch Q from a to a with a;
18 | UnknownField 0 | int x; x = <A: int f>; return;
19 | AbstractNew 0 | B x; x = new B; return;
20 | UndeclaredCallee 0 | staticinvoke <A: void h()>(); return;
20 | UndeclaredCallee 0 | B x; specialinvoke x.<B: void m()>(); return;
20 | UndeclaredCallee 0 | A x; virtualinvoke x.<A: void f()>(); return;
20 | UndeclaredCallee 0 | staticinvoke <H: void s()>(); return;
21 | BadArguments 0 | staticinvoke <A: void f()>(null); return;
21 | BadArguments 0 | A x; x = staticinvoke <A: void f()>(); return;
22 | NativeCallee 0 | staticinvoke <A: void g()>(); return;
22 | NativeCallee 0 | D x; virtualinvoke x.<D: void m()>(); return;
23 | AmbiguousDefault 0 | H x; virtualinvoke x.<H: void m()>(); return;
23 | AmbiguousDefault 1 | H x; nop; specialinvoke x.<H: void m()>(); return;
23 | AmbiguousDefault 0 | G x; interfaceinvoke x.<G: void m()>(); return;
6 7 | DuplicateLocal 0 | int x, x; l: l: return;
6 8 | DuplicateLocal 0 | int x, x; goto q;
6 9 | DuplicateLocal 0 | int x, x; nop;
6 10 | DuplicateLocal 0 | int x, x; y = null; return;
6 11 | DuplicateLocal 0 | Main x, x; x := @this: Main; return;
6 12 | DuplicateLocal 0 | int x, x; dynamicinvoke f; return;
6 13 | DuplicateLocal 0 | int x, x; staticinvoke <java.lang.Class: void f()>(); return;
6 14 | DuplicateLocal 0 | int x, x; staticinvoke <java.lang.Thread: void f()>(); return;
6 15 | DuplicateLocal 0 | int x, x; ret x; return;
6 16 | DuplicateLocal 0 | int[][] x, x; x = newmultiarray (int)[][3]; return;
6 17 | DuplicateLocal 0 | A x, x; x = new Q; return;
6 18 | DuplicateLocal 0 | int x, x; x = <A: int f>; return;
6 19 | DuplicateLocal 0 | B x, x; x = new B; return;
6 20 | DuplicateLocal 0 | int x, x; staticinvoke <A: void h()>(); return;
6 21 | DuplicateLocal 0 | int x, x; staticinvoke <A: void f()>(null); return;
6 22 | DuplicateLocal 0 | int x, x; staticinvoke <A: void g()>(); return;
6 23 | DuplicateLocal 0 | H x, x; virtualinvoke x.<H: void m()>(); return;
7 8 | DuplicateLabel 0 | l: l: goto q;
7 9 | DuplicateLabel 0 | l: l: nop;
7 10 | DuplicateLabel 0 | l: l: x = null; return;
7 11 | DuplicateLabel 0 | Main x; l: l: x := @this: Main; return;
7 12 | DuplicateLabel 0 | l: l: dynamicinvoke f; return;
7 13 | DuplicateLabel 0 | l: l: staticinvoke <java.lang.Class: void f()>(); return;
7 14 | DuplicateLabel 0 | l: l: staticinvoke <java.lang.Thread: void f()>(); return;
7 15 | DuplicateLabel 0 | int x; l: l: ret x; return;
7 16 | DuplicateLabel 0 | int[][] x; l: l: x = newmultiarray (int)[][3]; return;
7 17 | DuplicateLabel 0 | A x; l: l: x = new Q; return;
7 18 | DuplicateLabel 0 | int x; l: l: x = <A: int f>; return;
7 19 | DuplicateLabel 0 | B x; l: l: x = new B; return;
7 20 | DuplicateLabel 0 | l: l: staticinvoke <A: void h()>(); return;
7 21 | DuplicateLabel 0 | l: l: staticinvoke <A: void f()>(null); return;
7 22 | DuplicateLabel 0 | l: l: staticinvoke <A: void g()>(); return;
7 23 | DuplicateLabel 0 | H x; l: l: virtualinvoke x.<H: void m()>(); return;
8 9 | UnknownLabel 0 | if 0 == 1 goto q;
8 9 | UnknownLabel 1 | a: return; b: catch java.lang.Error from a to q with b;
8 17 | UnknownLabel 1 | a: return; catch Q from a to q with a;
9 10 | FallsOff 0 | x = null;
9 11 | FallsOff 0 | Main x; x := @this: Main;
9 12 | FallsOff 0 | dynamicinvoke f;
9 13 | FallsOff 0 | staticinvoke <java.lang.Class: void f()>();
9 14 | FallsOff 0 | staticinvoke <java.lang.Thread: void f()>();
9 15 | FallsOff 0 | int x; ret x;
9 16 | FallsOff 0 | int[][] x; x = newmultiarray (int)[][3];
9 17 | FallsOff 0 | A x; x = new Q;
9 17 | FallsOff 1 | a: return; b: catch Q from a to b with b;
9 18 | FallsOff 0 | int x; x = <A: int f>;
9 19 | FallsOff 0 | B x; x = new B;
9 20 | FallsOff 0 | staticinvoke <A: void h()>();
9 21 | FallsOff 0 | staticinvoke <A: void f()>(null);
9 22 | FallsOff 0 | staticinvoke <A: void g()>();
9 23 | FallsOff 0 | H x; virtualinvoke x.<H: void m()>();
10 11 | UnknownLocal 0 | x := @this: Main; return;
10 12 | UnknownLocal 0 | x = dynamicinvoke f; return;
10 13 | UnknownLocal 0 | staticinvoke <java.lang.Class: void k(int)>(x); return;
10 14 | UnknownLocal 0 | x = new java.lang.Thread; return;
10 16 | UnknownLocal 0 | x = newmultiarray (int)[][3]; return;
10 17 | UnknownLocal 0 | x = new Q; return;
10 18 | UnknownLocal 0 | x = <A: int f>; return;
10 19 | UnknownLocal 0 | x = new B; return;
10 20 | UnknownLocal 0 | x = staticinvoke <A: int h()>(); return;
10 21 | UnknownLocal 0 | staticinvoke <A: void f()>(x); return;
10 22 | UnknownLocal 0 | virtualinvoke x.<D: void m()>(); return;
10 23 | UnknownLocal 0 | virtualinvoke x.<H: void m()>(); return;
13 14 | Reflection 0 | staticinvoke <java.lang.reflect.R: void f()>(); return;
13 17 | Reflection 0 | staticinvoke <java.lang.invoke.Q: void f()>(); return;
13 20 | Reflection 0 | staticinvoke <java.lang.Class: void h()>(); return;
13 21 | Reflection 0 | staticinvoke <java.lang.Class: void f()>(null); return;
13 22 | Reflection 0 | staticinvoke <java.lang.Class: void g()>(); return;
13 23 | Reflection 0 | java.lang.reflect.S x; virtualinvoke x.<java.lang.reflect.S: void m()>(); return;
14 19 | Threads 0 | E x; x = new E; return;
14 20 | Threads 0 | staticinvoke <java.lang.Thread: void h()>(); return;
14 21 | Threads 0 | staticinvoke <java.lang.Thread: void f()>(null); return;
14 22 | Threads 0 | staticinvoke <java.lang.Thread: void g()>(); return;
14 23 | Threads 0 | T x; virtualinvoke x.<T: void m()>(); return;
17 21 | UnknownClass 0 | staticinvoke <Q: void f()>(null); return;
20 21 | UndeclaredCallee 0 | staticinvoke <A: void h()>(null); return;
20 22 | UndeclaredCallee 0 | C x; virtualinvoke x.<C: void m()>(); return;
20 23 | UndeclaredCallee 0 | N x; virtualinvoke x.<N: void m()>(); return;
21 22 | BadArguments 0 | staticinvoke <A: void g()>(null); return;
21 23 | BadArguments 0 | H x; virtualinvoke x.<H: void m()>(null); return;
22 23 | NativeCallee 0 | F x; interfaceinvoke x.<F: void m()>(); return;
7 10 | UnknownLocal 0 | x = null; l: l: return;
6 22 | DuplicateLocal 0 | int x, x; nop; staticinvoke <A: void g()>(); return;
17 22 | NativeCallee 0 | A x; staticinvoke <A: void g()>(); x = new Q; return;";

// A body with each kind that a body may have.
const EACH_KIND: &str =
    "int x, x; l: l: y = null; x := @this: Main; dynamicinvoke f; staticinvoke <java.lang.Class: void f()>(); \
staticinvoke <java.lang.Thread: void f()>(); ret x; x = newmultiarray (int)[][3]; x = new Q; x = <A: int f>; x = new B; \
staticinvoke <A: void h()>(); staticinvoke <A: void f()>(null); staticinvoke <A: void g()>(); virtualinvoke x.<H: void m()>(); goto q; nop;";

// Classes that are refused as a whole, whatever the bodies of their methods: a lesser number is told, wherever it stands.
const WHOLES: &str = "1 | DuplicateClass K | class K { } class K { }
1 | DuplicateClass L | class K { } class L { } class L { } class K { }
2 | UnknownParent K | class K extends Q { }
2 | UnknownParent L | class K { } class L implements K, Q { } class M extends Q { }
3 | CyclicClass K | class K extends K { }
3 | CyclicClass L | class K extends Main { } class L extends M { } class M implements L { }
1 2 | DuplicateClass K | class L extends Q { } class K { } class K { }
1 3 | DuplicateClass K | class L extends L { } class K { } class K { }
2 3 | UnknownParent K | class L extends L { } class K extends Q { }";

// Whole programs: no class to begin with, the order of methods, the root, and which methods are reached.
const PROGRAMS: &str = "5 17 | NoEntry | class A { }
5 20 | NoEntry | class Main { }
5 20 | NoEntry | class Main { void main(java.lang.String[]) { return; } }
5 20 | NoEntry | class Main { static void main() { return; } }
5 22 | NoEntry | class Main { static native void main(java.lang.String[]); }
5 14 | NoEntry | class java.lang.Thread { } class Main extends java.lang.Thread { }
5 | NoEntry | class A { static void main(java.lang.String[]) { return; } } class Main extends A { }
5 19 | NoEntry | abstract class java.lang.String { } class Main { }
1 5 | DuplicateClass A | class A { } class A { }
2 5 | UnknownParent A | class A extends Q { }
3 5 | CyclicClass A | class A extends A { }
5 23 | NoEntry | interface F { void m() { return; } } interface G { void m() { return; } } class Main implements F, G { }
14 17 | Threads <Main: void main(java.lang.String[])> 0 | class Main { static void main(java.lang.String[]) { Main x; x = new java.lang.Thread; return; } }
9 9 | FallsOff <A: void f()> 0 | class A { static void f() { nop; } } class Main { static void main(java.lang.String[]) { staticinvoke <A: void f()>(); nop; } }
9 9 | FallsOff <Main: void main(java.lang.String[])> 1 | class Main { static void main(java.lang.String[]) { staticinvoke <A: void f()>(); nop; } } class A { static void f() { nop; } }
7 17 | UnknownClass <Main: void f()> 0 | class Main { static void f() { Main x; x = new Q; return; } static void main(java.lang.String[]) { l: l: staticinvoke <Main: void f()>(); return; } }
9 10 | UnknownLocal <Main: void main(java.lang.String[])> 0 | class A { static void f() { nop; } } class Main { static void main(java.lang.String[]) { x = null; return; } }
9 21 | BadArguments <Main: void main(java.lang.String[])> 0 | class A { static void f(int) { nop; } } class Main { static void main(java.lang.String[]) { staticinvoke <A: void f(int)>(); return; } }
9 9 | FallsOff <A: void f()> 0 | class A { static void f() { nop; } } class Main { static void main(java.lang.String[]) { staticinvoke <A: void f()>(); } }
9 19 | FallsOff <A: void <clinit>()> 0 | abstract class A { static void <clinit>() { nop; } } class Main { static void main(java.lang.String[]) { A x; x = new A; return; } }
9 19 | AbstractNew <Main: void main(java.lang.String[])> 0 | class Main { static void main(java.lang.String[]) { A x; x = new A; return; } } abstract class A { static void <clinit>() { nop; } }
9 18 | FallsOff <A: void <clinit>()> 0 | class A { static void <clinit>() { nop; } } class Main { static void main(java.lang.String[]) { int x; x = <A: int f>; return; } }
9 18 | UnknownField <Main: void main(java.lang.String[])> 0 | class A { static void <clinit>() { nop; } } class Main { static void main(java.lang.String[]) { A x; x = x.<A: A f>; return; } }
9 22 | FallsOff <A: void <clinit>()> 0 | class A { static void <clinit>() { nop; } static native void g(); } class Main { static void main(java.lang.String[]) { staticinvoke <A: void g()>(); return; } }
9 20 | FallsOff <P: void <clinit>()> 0 | class P { static void <clinit>() { nop; } } class A extends P { } class Main { static void main(java.lang.String[]) { staticinvoke <A: void g()>(); return; } }
19 | AbstractNew root 0 | abstract class java.lang.String { } class Main { static void main(java.lang.String[]) { return; } }
14 | Threads root 3 | class java.lang.Thread { } class Main extends java.lang.Thread { static void main(java.lang.String[]) { nop; } }
9 19 | FallsOff <Main: void main(java.lang.String[])> 0 | abstract class java.lang.String { } class Main { static void main(java.lang.String[]) { nop; } }
23 | AmbiguousDefault <Main: void main(java.lang.String[])> 0 | interface F { void m() { return; } } interface G { void m() { return; } } class H implements F, G { } class C extends H { void m() { return; } } class Main { static void main(java.lang.String[]) { H x; virtualinvoke x.<H: void m()>(); return; } }
9 23 | AmbiguousDefault <Main: void main(java.lang.String[])> 0 | interface F { void m() { nop; } } interface G { void m() { nop; } } class H implements F, G { } class Main { static void main(java.lang.String[]) { H x; specialinvoke x.<H: void m()>(); return; } }
9 17 | FallsOff <F: void m()> 0 | interface F { void m() { nop; } } class H implements F { } class Main { static void main(java.lang.String[]) { H x; virtualinvoke x.<H: void m()>(); x = new Q; return; } }
22 | NativeCallee <Main: void main(java.lang.String[])> 0 | class A { void m() { return; } } abstract class B extends A { native void m(); } class C extends B { } class Main { static void main(java.lang.String[]) { A x; virtualinvoke x.<A: void m()>(); return; } }
10 22 | UnknownLocal <Main: void main(java.lang.String[])> 1 | class A { void m() { return; } } abstract class B extends A { native void m(); } class Main { static void main(java.lang.String[]) { A x; virtualinvoke x.<A: void m()>(); y = null; return; } }
20 | UndeclaredCallee <java.lang.NullPointerException: void <init>(java.lang.String)> 2 | class java.lang.RuntimeException { } class Main { static void main(java.lang.String[]) { java.lang.NullPointerException x; specialinvoke x.<java.lang.NullPointerException: void <init>(java.lang.String)>(null); return; } }";

// Whether a program is refused by linking with this line.
fn is_told<R: Threads + AllocGlobal + Sync>(
    rt: &R,
    text: &str,
    told: &str,
) -> Result<bool, AllocError> {
    let reply = format!(in rt.alloc(); "refused NotLinked {told}\n")?;
    is_reply(
        rt,
        "points-to;Main;@;0;x;100",
        text.as_bytes(),
        SMALL,
        6,
        reply.as_str(),
    )
}

// What a row tells, and its text.
fn parts(row: &str) -> Option<(&str, &str)> {
    let (_, rest) = row.split_once(" | ")?;
    rest.split_once(" |")
}

// A program whose `main` has this body.
fn program(alloc: Global, classes: &str, body: &str) -> Result<String, AllocError> {
    format!(in alloc;
        "{classes} class Main {{ static void main(java.lang.String[]) {{ {body} }} }}"
    )
}

// What is told of `main`: a kind and an index, with the method between them.
fn told_of_main(alloc: Global, told: &str) -> Result<String, AllocError> {
    match told.split_once(" ") {
        Some((kind, index)) => {
            format!(in alloc; "{kind} <Main: void main(java.lang.String[])> {index}")
        }
        None => String::from_str(alloc, told),
    }
}

fn is_body_refused<R: Threads + AllocGlobal + Sync>(rt: &R, row: &str) -> Result<bool, AllocError> {
    let Some((told, body)) = parts(row) else {
        return Ok(false);
    };
    let text = program(rt.alloc(), CLASSES, body)?;
    let told = told_of_main(rt.alloc(), told)?;
    is_told(rt, text.as_str(), told.as_str())
}

// The first body that is refused otherwise.
fn first_body<R: Threads + AllocGlobal + Sync>(rt: &R) -> Result<Option<&'static str>, AllocError> {
    for row in BODIES.lines() {
        if !is_body_refused(rt, row)? {
            return Ok(Some(row));
        }
    }
    Ok(None)
}

fn is_program_refused<R: Threads + AllocGlobal + Sync>(
    rt: &R,
    row: &str,
) -> Result<bool, AllocError> {
    match parts(row) {
        Some((told, text)) => is_told(rt, text, told),
        None => Ok(false),
    }
}

// The first program that is refused otherwise.
fn first_program<R: Threads + AllocGlobal + Sync>(
    rt: &R,
) -> Result<Option<&'static str>, AllocError> {
    for row in PROGRAMS.lines() {
        if !is_program_refused(rt, row)? {
            return Ok(Some(row));
        }
    }
    Ok(None)
}

#[test]
fn refuses_bodies_and_programs(rt: HostRuntime) -> Result<(), Fail> {
    assert_eq!(rt; first_body(&rt)?, None);
    assert_eq!(rt; first_program(&rt)?, None);
    Ok(())
}

// Whether the classes of a whole are refused as it tells, whatever the body of `main`.
fn is_whole_refused<R: Threads + AllocGlobal + Sync>(
    rt: &R,
    row: &str,
    body: &str,
) -> Result<bool, AllocError> {
    let Some((told, whole)) = parts(row) else {
        return Ok(false);
    };
    let classes = format!(in rt.alloc(); "{whole} {CLASSES}")?;
    let text = program(rt.alloc(), classes.as_str(), body)?;
    is_told(rt, text.as_str(), told)
}

// Whether a row has one kind alone.
fn is_single(row: &str) -> bool {
    match row.split_once(" | ") {
        Some((kinds, _)) => !kinds.contains(" "),
        None => false,
    }
}

// The first body with one kind alone before which the whole isn't refused.
fn first_before<R: Threads + AllocGlobal + Sync>(
    rt: &R,
    row: &str,
) -> Result<Option<&'static str>, AllocError> {
    for below in BODIES.lines().filter(|row| is_single(row)) {
        let body = match parts(below) {
            Some((_, body)) => body,
            None => "",
        };
        if !is_whole_refused(rt, row, body)? {
            return Ok(Some(below));
        }
    }
    Ok(None)
}

// The first whole that isn't refused before all kinds in `main` together, and before each alone where the whole has one kind itself.
fn first_whole<R: Threads + AllocGlobal + Sync>(
    rt: &R,
) -> Result<Option<&'static str>, AllocError> {
    for row in WHOLES.lines() {
        if !is_whole_refused(rt, row, EACH_KIND)? {
            return Ok(Some(row));
        }
        if is_single(row) && first_before(rt, row)?.is_some() {
            return Ok(Some(row));
        }
    }
    Ok(None)
}

// A refusal of the program comes before each refusal in a method.
#[test]
fn refuses_wholes_first(rt: HostRuntime) -> Result<(), Fail> {
    assert_eq!(rt; first_whole(&rt)?, None);
    Ok(())
}
