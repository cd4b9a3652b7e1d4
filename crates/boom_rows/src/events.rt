//! What the rules of typestate say of each kind of node, of call and of object, with the verdicts found by hand from the definitions. A row has a protocol,
//! and behind ` | ` the reply, in which `~` stands for a line feed and `@` for `main` of the class `Main`.
use asked_text::{Pieces, is_reply_to, reply_text};
use std::alloc::AllocError;
use std::marker::Sync;
use std::test::Fail;
use std::thread::Threads;

// A file is opened by a method that then throws. From its raised place the file comes back, opened, to the call and from there to the handler. The first
// protocol allows the read there, and the second one doesn't.
const HANDLER: (&str, &str) = (
    "class F { void open() { return; } void read() { return; } } class E extends java.lang.Exception { } class Main {
static void fail(F) { F p; E e; p := @parameter0: F; virtualinvoke p.<F: void open()>(); e = new E; throw e; }
static void main(java.lang.String[]) { F f; java.lang.Throwable t; f = new F; label1: staticinvoke <Main: void fail(F)>(f); label2: return;
label3: t := @caughtexception; virtualinvoke f.<F: void read()>(); return; catch java.lang.Throwable from label1 to label2 with label3; } }",
    "F closed;closed open opened;opened read opened | typestate Main F~verdict safe~demanded 12~
F closed;closed open opened;closed read closed | typestate Main F~unsafe @ 0 new F at @ 4 state opened event read~verdict unsafe 1~demanded 12~",
);

// What is thrown is tracked through two methods and a handler: the same protocol with an event that never comes alarms.
const THROWN: (&str, &str) = (
    "class E extends java.lang.Exception { void ask() { return; } } class Main { static void inner() { E e; e = new E; throw e; }
static void outer() { staticinvoke <Main: void inner()>(); return; }
static void main(java.lang.String[]) { java.lang.Throwable t; E e; label1: staticinvoke <Main: void outer()>(); label2: return;
label3: t := @caughtexception; e = (E) t; virtualinvoke e.<E: void ask()>(); return; catch E from label1 to label2 with label3; } }",
    "E made;made ask asked | typestate Main E~verdict safe~demanded 9~
E made;made <init> ready;ready ask ready | typestate Main E~unsafe <Main: void inner()> 0 new E at @ 4 state made event ask~verdict unsafe 1~demanded 9~",
);

// The exception that a call on null raises is an object with a state of its own.
const RAISED: (&str, &str) = (
    "class Main { static void main(java.lang.String[]) { java.lang.Object a; java.lang.Throwable t; a = null;
label1: virtualinvoke a.<java.lang.Object: int hashCode()>(); label2: return; label3: t := @caughtexception;
virtualinvoke t.<java.lang.Throwable: java.lang.String getMessage()>(); virtualinvoke t.<java.lang.Throwable: java.lang.String getMessage()>(); return;
catch java.lang.NullPointerException from label1 to label2 with label3; } }",
    "java.lang.Throwable new;new getMessage told;told getMessage told | typestate Main java.lang.Throwable~verdict safe~demanded 8~
java.lang.Throwable new;new getMessage told | typestate Main java.lang.Throwable~unsafe @ 1 raise java.lang.NullPointerException at @ 5 state told event getMessage~verdict unsafe 1~demanded 8~",
);

// A text is one object wherever it stands, so it begins in each state to which its events may lead, whatever stands before.
const TEXTS: (&str, &str) = (
    "class Main { static void main(java.lang.String[]) { java.lang.String s, t; s = \"x\"; virtualinvoke s.<java.lang.String: int length()>();
t = \"y\"; virtualinvoke t.<java.lang.String: int length()>(); t = \"x\"; virtualinvoke t.<java.lang.String: int length()>(); return; } }",
    "java.lang.String a;a length a | typestate Main java.lang.String~verdict safe~demanded 6~
java.lang.String a;a length b | typestate Main java.lang.String~unsafe text \"x\" at @ 1 state b event length~unsafe text \"x\" at @ 5 state b event length~unsafe text \"y\" at @ 3 state b event length~verdict unsafe 3~demanded 6~",
);

// So is a class constant, which is passed to a method here.
const CLASSES: (&str, &str) = (
    "class Main { static void hash(java.lang.Object) { java.lang.Object o; o := @parameter0: java.lang.Object; virtualinvoke o.<java.lang.Object: int hashCode()>(); return; }
static void main(java.lang.String[]) { java.lang.Object o; staticinvoke <Main: void hash(java.lang.Object)>(class \"LMain;\"); return; } }",
    "java.lang.Class a;a hashCode a | typestate Main java.lang.Class~verdict safe~demanded 3~
java.lang.Class a;a hashCode b | typestate Main java.lang.Class~unsafe class \"LMain;\" at <Main: void hash(java.lang.Object)> 1 state b event hashCode~verdict unsafe 1~demanded 3~",
);

// An array has no state, though its class is that of the protocol. What is loaded from it begins in each state to which its events may lead; the root's own
// array and its text are demanded, since its store is one of the same field.
const ARRAYS: (&str, &str) = (
    "class Main { static void main(java.lang.String[]) { java.lang.Object[] a; java.lang.Object o, p; a = newarray (java.lang.Object)[1]; o = new java.lang.Object; a[0] = o; p = a[0];
virtualinvoke p.<java.lang.Object: int hashCode()>(); virtualinvoke a.<java.lang.Object: int hashCode()>(); virtualinvoke a.<java.lang.Object: int hashCode()>(); return; } }",
    "java.lang.Object a;a hashCode a | typestate Main java.lang.Object~verdict safe~demanded 16~
java.lang.Object a;a hashCode b | typestate Main java.lang.Object~unsafe @ 1 new java.lang.Object at @ 4 state b event hashCode~verdict unsafe 1~demanded 16~",
);

// A file is opened by a method that finds it in a static field. There it begins in each state to which its events may lead; over the call, to which it isn't
// passed, it goes by what the methods that are called may do to it, or not.
const STATICS: (&str, &str) = (
    "class F { void open() { return; } void read() { return; } } class Main { static F s; static void open() { F f; f = <Main: F s>; virtualinvoke f.<F: void open()>(); return; }
static void main(java.lang.String[]) { F f; f = new F; <Main: F s> = f; staticinvoke <Main: void open()>(); virtualinvoke f.<F: void read()>(); return; } }",
    "F closed;closed open opened;opened open opened;closed read closed;opened read opened | typestate Main F~verdict safe~demanded 5~
F closed;closed open opened;opened read opened | typestate Main F~unsafe @ 0 new F at <Main: void open()> 1 state opened event open~unsafe @ 0 new F at @ 3 state closed event read~verdict unsafe 2~demanded 5~",
);

// A protocol of an interface is about the objects of the classes that implement it, and about no others.
const INTERFACE: (&str, &str) = (
    "interface I { void go(); } class A implements I { void go() { return; } } class B { void go() { return; } } class Main {
static void main(java.lang.String[]) { I i; B b; i = new A; interfaceinvoke i.<I: void go()>(); interfaceinvoke i.<I: void go()>();
b = new B; virtualinvoke b.<B: void go()>(); virtualinvoke b.<B: void go()>(); return; } }",
    "I a;a go b;b go b | typestate Main I~verdict safe~demanded 4~
I a;a go b | typestate Main I~unsafe @ 0 new A at @ 2 state b event go~verdict unsafe 1~demanded 4~",
);

// A special call is an event where some class is below that of the protocol and below the one that it names: none is here, though the method runs on the
// file.
const SPECIAL: (&str, &str) = (
    "class F { void open() { return; } } class G { void open() { return; } } class Main { static void main(java.lang.String[]) { F f; f = new F;
specialinvoke f.<G: void open()>(); virtualinvoke f.<F: void open()>(); return; } }",
    "F closed;closed open opened | typestate Main F~verdict safe~demanded 4~
F closed;opened open closed | typestate Main F~unsafe @ 0 new F at @ 2 state closed event open~verdict unsafe 1~demanded 4~",
);

// Each constructor that a constructor calls is one event more: that of `java.lang.Object` on a file, and that of the file on what is below it, behind which
// it has no state.
const CONSTRUCTORS: (&str, &str) = (
    "class F { void <init>() { F r; r := @this: F; specialinvoke r.<java.lang.Object: void <init>()>(); return; } void open() { return; } }
class G extends F { void <init>() { G r; r := @this: G; specialinvoke r.<F: void <init>()>(); return; } } class Main {
static void main(java.lang.String[]) { F f; G g; f = new F; specialinvoke f.<F: void <init>()>(); virtualinvoke f.<F: void open()>();
g = new G; specialinvoke g.<G: void <init>()>(); virtualinvoke g.<F: void open()>(); return; } }",
    "F raw;raw <init> ready;ready <init> ready;ready open ready | typestate Main F~verdict safe~demanded 13~
F raw;raw <init> ready;ready open ready | typestate Main F~unsafe @ 0 new F at <F: void <init>()> 1 state ready event <init>~unsafe @ 3 new G at <G: void <init>()> 1 state ready event <init>~verdict unsafe 2~demanded 13~",
);

// A file is closed by a method that takes it over at once: behind the call it is what it is at the method's return, and may be opened.
const SETTLED: (&str, &str) = (
    "class F { void open() { return; } void read() { return; } void close() { return; } } class Main {
static void end(F) { F p; p := @parameter0: F; virtualinvoke p.<F: void close()>(); return; }
static void main(java.lang.String[]) { F f; f = new F; virtualinvoke f.<F: void open()>(); staticinvoke <Main: void end(F)>(f);
virtualinvoke f.<F: void open()>(); virtualinvoke f.<F: void read()>(); return; } }",
    "F closed;closed open opened;opened read opened;opened close closed | typestate Main F~verdict safe~demanded 10~",
);

// The same where the method may not take it over: besides, it is what it was before the call, and so may be open.
const UNSETTLED: (&str, &str) = (
    "class F { void open() { return; } void read() { return; } void close() { return; } } class Main {
static void end(F) { F p; if 0 == 1 goto label1; p := @parameter0: F; virtualinvoke p.<F: void close()>(); label1: return; }
static void main(java.lang.String[]) { F f; f = new F; virtualinvoke f.<F: void open()>(); staticinvoke <Main: void end(F)>(f);
virtualinvoke f.<F: void open()>(); virtualinvoke f.<F: void read()>(); return; } }",
    "F closed;closed open opened;opened read opened;opened close closed | typestate Main F~unsafe @ 0 new F at @ 3 state opened event open~verdict unsafe 1~demanded 12~",
);

// The local that takes it over is assigned once more, so that the parameter itself tells what comes back: closed or not, since the event is on the local.
const ASSIGNED: (&str, &str) = (
    "class F { void open() { return; } void read() { return; } void close() { return; } } class Main {
static void end(F) { F p; p := @parameter0: F; virtualinvoke p.<F: void close()>(); p = null; return; }
static void main(java.lang.String[]) { F f; f = new F; virtualinvoke f.<F: void open()>(); staticinvoke <Main: void end(F)>(f);
virtualinvoke f.<F: void read()>(); return; } }",
    "F closed;closed open opened;opened read opened;opened close closed;closed read closed | typestate Main F~verdict safe~demanded 10~
F closed;closed open opened;opened read opened;opened close closed | typestate Main F~unsafe @ 0 new F at @ 3 state closed event read~verdict unsafe 1~demanded 10~",
);

// A receiver that the method may not take over, and a handler: at the raised place of the call the file is opened, or not.
const RECEIVER: (&str, &str) = (
    "class F { void open() { F r; java.lang.Object x; if 0 == 1 goto label1; r := @this: F; label1: x = new java.lang.Object; virtualinvoke x.<java.lang.Object: int hashCode()>(); return; }
void read() { return; } } class Main { static void main(java.lang.String[]) { F f; java.lang.Throwable t; f = new F;
label1: virtualinvoke f.<F: void open()>(); label2: return; label3: t := @caughtexception; virtualinvoke f.<F: void read()>(); return;
catch java.lang.Throwable from label1 to label2 with label3; } }",
    "F closed;closed open opened;opened read opened;closed read closed | typestate Main F~verdict safe~demanded 11~
F closed;closed open opened;opened read opened | typestate Main F~unsafe @ 0 new F at @ 4 state closed event read~verdict unsafe 1~demanded 11~
F closed;closed open opened;closed read closed | typestate Main F~unsafe @ 0 new F at @ 4 state opened event read~verdict unsafe 1~demanded 11~",
);

// A file is passed to a call on null, which raises before anything is done to it: in the handler it is opened, as before.
const NULL: (&str, &str) = (
    "class F { void open() { return; } void close() { return; } } class U { void end(F) { F p; p := @parameter0: F; virtualinvoke p.<F: void close()>(); return; } } class Main {
static void main(java.lang.String[]) { F f; U u; java.lang.Throwable t; f = new F; virtualinvoke f.<F: void open()>(); u = null;
label1: virtualinvoke u.<U: void end(F)>(f); label2: return; label3: t := @caughtexception; virtualinvoke f.<F: void open()>(); return;
catch java.lang.NullPointerException from label1 to label2 with label3; } }",
    "F closed;closed open opened;opened open opened;opened close closed | typestate Main F~verdict safe~demanded 11~
F closed;closed open opened;opened close closed | typestate Main F~unsafe @ 0 new F at @ 6 state opened event open~verdict unsafe 1~demanded 11~",
);

// The same where the receiver may be null or not. The method either closes the file or isn't run, so it may be opened behind the call, and read in the
// handler.
const PERHAPS: (&str, &str) = (
    "class F { void open() { return; } void read() { return; } void close() { return; } }
class U { void end(F) { U u; F p; u := @this: U; p := @parameter0: F; virtualinvoke p.<F: void close()>(); return; } } class Main {
static void main(java.lang.String[]) { F f; U u; java.lang.Throwable t; f = new F; virtualinvoke f.<F: void open()>(); u = null; if 0 == 1 goto label1; u = new U;
label1: virtualinvoke u.<U: void end(F)>(f); label2: virtualinvoke f.<F: void open()>(); return; label3: t := @caughtexception; virtualinvoke f.<F: void read()>(); return;
catch java.lang.NullPointerException from label1 to label2 with label3; } }",
    "F closed;closed open opened;opened read opened;opened close closed | typestate Main F~verdict safe~demanded 17~",
);

const PIECES: Pieces = Pieces {
    read: 1000,
    write: 64,
};

// Whether a row gets its reply.
fn is_right<R: Threads + AllocGlobal + Sync>(
    rt: &R,
    program: &str,
    row: &str,
) -> Result<bool, AllocError> {
    let Some((protocol, told)) = row.split_once(" | ") else {
        return Ok(false);
    };
    let reply = reply_text(rt.alloc(), told)?;
    let words = ["typestate", "Main", protocol, "100"];
    is_reply_to(rt, &words, program, PIECES, 0, reply.as_str())
}

fn first_wrong<R: Threads + AllocGlobal + Sync>(
    rt: &R,
    rows: (&'static str, &'static str),
) -> Result<Option<&'static str>, AllocError> {
    let (program, rows) = rows;
    for row in rows.lines() {
        if !is_right(rt, program, row)? {
            return Ok(Some(row));
        }
    }
    Ok(None)
}

#[test]
fn tracks_exceptions_and_constants(rt: HostRuntime) -> Result<(), Fail> {
    for rows in [HANDLER, THROWN, RAISED, TEXTS, CLASSES] {
        assert_eq!(rt; first_wrong(&rt, rows)?, None);
    }
    Ok(())
}

#[test]
fn tracks_the_heap_and_classes(rt: HostRuntime) -> Result<(), Fail> {
    for rows in [ARRAYS, STATICS, INTERFACE, SPECIAL, CONSTRUCTORS] {
        assert_eq!(rt; first_wrong(&rt, rows)?, None);
    }
    Ok(())
}

#[test]
fn tracks_what_is_passed(rt: HostRuntime) -> Result<(), Fail> {
    for rows in [SETTLED, UNSETTLED, ASSIGNED, RECEIVER, NULL, PERHAPS] {
        assert_eq!(rt; first_wrong(&rt, rows)?, None);
    }
    Ok(())
}
