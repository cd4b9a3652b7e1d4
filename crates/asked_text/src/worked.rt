//! Worked programs: questions about small programs, with the replies found by hand.
//!
//! A row has the words of a command, with `;` between them, and behind ` | ` the lines of the reply, with `~` behind each. `@` stands for the text of `main`
//! of the class `Main`. The status of a reply that is no refusal is 0.

use compiled_text::AS_COMPILED;

// Two callers of one method: what one passes isn't given to the other.
const CALLS: (&str, &str) = (
    "class A { } class B { } class Main {
static java.lang.Object id(java.lang.Object) { java.lang.Object p; p := @parameter0: java.lang.Object; return p; }
static void main(java.lang.String[]) { java.lang.Object a, b, x, y; a = new A; b = new B;
x = staticinvoke <Main: java.lang.Object id(java.lang.Object)>(a);
y = staticinvoke <Main: java.lang.Object id(java.lang.Object)>(b); return; } }",
    "points-to;Main;@;4;x;10 | points-to @ 4 x~site @ 0 new A~sites 1~demanded 10~
points-to;Main;@;4;y;9 | points-to @ 4 y~site @ 1 new B~sites 1~demanded 9~
points-to;Main;@;4;x;9 | refused OverBudget 9~
alias;Main;@;4;a;x;100 | alias @ 4 a x~shared @ 0 new A~aliases yes~demanded 12~
alias;Main;@;4;x;y;100 | alias @ 4 x y~aliases no~demanded 11~",
);

// Two boxes that are filled and read by the same methods.
const BOXES: (&str, &str) = (
    "class A { } class B { } class Box { java.lang.Object v;
void set(java.lang.Object) { Box r; java.lang.Object p; r := @this: Box; p := @parameter0: java.lang.Object; r.<Box: java.lang.Object v> = p; return; }
java.lang.Object get() { Box r; java.lang.Object q; r := @this: Box; q = r.<Box: java.lang.Object v>; return q; } }
class Main { static void main(java.lang.String[]) { Box a, b; java.lang.Object o, p, x, y; a = new Box; b = new Box; o = new A; p = new B;
virtualinvoke a.<Box: void set(java.lang.Object)>(o); virtualinvoke b.<Box: void set(java.lang.Object)>(p);
x = virtualinvoke a.<Box: java.lang.Object get()>(); y = virtualinvoke b.<Box: java.lang.Object get()>(); return; } }",
    "points-to;Main;@;8;x;100 | points-to @ 8 x~site @ 2 new A~sites 1~demanded 31~
points-to;Main;@;8;x;30 | refused OverBudget 30~
points-to;Main;@;8;y;100 | points-to @ 8 y~site @ 3 new B~sites 1~demanded 30~",
);

// A box that is filled through another name.
const NAMES: (&str, &str) = (
    "class Box { java.lang.Object v; } class A { } class Main {
static void put(Box) { Box p, r; A o; p := @parameter0: Box; r = p; p = new Box; o = new A; r.<Box: java.lang.Object v> = o; return; }
static void main(java.lang.String[]) { Box a, b; java.lang.Object x; a = new Box; b = a; staticinvoke <Main: void put(Box)>(a);
x = b.<Box: java.lang.Object v>; return; } }",
    "points-to;Main;@;4;x;100 | points-to @ 4 x~site <Main: void put(Box)> 3 new A~sites 1~demanded 13~",
);

// Fields of fields, and a static field.
const STATICS: (&str, &str) = (
    "class Box { Box n; java.lang.Object v; } class A { } class Main { static Box s;
static void main(java.lang.String[]) { Box a, b, c, d; java.lang.Object o, x; a = new Box; b = new Box; o = new A; a.<Box: Box n> = b;
b.<Box: java.lang.Object v> = o; <Main: Box s> = a; c = <Main: Box s>; d = c.<Box: Box n>; x = d.<Box: java.lang.Object v>; return; } }",
    "points-to;Main;@;9;x;100 | points-to @ 9 x~site @ 2 new A~sites 1~demanded 16~",
);

// A recursion of any depth, and a store of null.
const RECURSION: (&str, &str) = (
    "class N { N next; } class Main {
static N make(N) { N p, q; p := @parameter0: N; q = new N; q.<N: N next> = p; if 0 == 1 goto label1; q = staticinvoke <Main: N make(N)>(q);
label1: return q; }
static void main(java.lang.String[]) { N x; x = staticinvoke <Main: N make(N)>(null); return; } }",
    "points-to;Main;@;1;x;100 | points-to @ 1 x~site <Main: N make(N)> 1 new N~sites 1~demanded 5~",
);

// A method that calls itself with what it was given.
const ITSELF: (&str, &str) = (
    "class A { } class Main {
static java.lang.Object f(java.lang.Object) { java.lang.Object p; p := @parameter0: java.lang.Object; if 0 == 1 goto label1;
p = staticinvoke <Main: java.lang.Object f(java.lang.Object)>(p); label1: return p; }
static void main(java.lang.String[]) { java.lang.Object x, y; x = new A; y = staticinvoke <Main: java.lang.Object f(java.lang.Object)>(x); return; } }",
    "points-to;Main;@;2;y;100 | points-to @ 2 y~site @ 0 new A~sites 1~demanded 7~",
);

// A store of null into another box than the one that is read: it demands nothing.
const NOTHING: (&str, &str) = (
    "class Box { java.lang.Object v; } class Main { static void main(java.lang.String[]) { Box a, c; java.lang.Object x; a = new Box; c = new Box;
c.<Box: java.lang.Object v> = null; x = a.<Box: java.lang.Object v>; return; } }",
    "points-to;Main;@;4;x;100 | points-to @ 4 x~sites 0~demanded 5~",
);

// An exception that passes through a method, and those that a store and a throw raise.
const THROWN: (&str, &str) = (
    "class A { } class E extends java.lang.Exception { java.lang.Object v; } class Main {
static void inner() { E e; A a; e = new E; a = new A; e.<E: java.lang.Object v> = a; throw e; }
static void outer() { staticinvoke <Main: void inner()>(); return; }
static void main(java.lang.String[]) { java.lang.Throwable t; java.lang.Object x; label1: staticinvoke <Main: void outer()>(); label2: return;
label3: t := @caughtexception; x = t.<E: java.lang.Object v>; return; catch java.lang.Throwable from label1 to label2 with label3; } }",
    "points-to;Main;@;4;x;100 | points-to @ 4 x~site <Main: void inner()> 1 new A~sites 1~demanded 15~
points-to;Main;@;3;t;100 | points-to @ 3 t~site <Main: void inner()> 0 new E~site <Main: void inner()> 2 raise java.lang.NullPointerException~site <Main: void inner()> 3 raise java.lang.NullPointerException~sites 3~demanded 12~",
);

// A call on null: a query, and two runs.
const NULL: (&str, &str) = (
    "class Main { static void main(java.lang.String[]) { java.lang.Object a; java.lang.Throwable t; label1: a = null;
virtualinvoke a.<java.lang.Object: int hashCode()>(); label2: return; label3: t := @caughtexception; return;
catch java.lang.NullPointerException from label1 to label2 with label3; } }",
    "points-to;Main;@;4;t;100 | points-to @ 4 t~site @ 1 raise java.lang.NullPointerException~sites 1~demanded 4~
run;Main;8;- | run Main~steps 8~end running~at @ 4~local a null~local t @ 1 raise java.lang.NullPointerException~
run;Main;100;- | run Main~steps 10~end ended~",
);

// Texts, which are one object wherever they stand.
const TEXTS: (&str, &str) = (
    "class Main { static java.lang.Object f() { return \"k\"; }
static void main(java.lang.String[]) { java.lang.Object x, y, z; x = \"k\"; y = staticinvoke <Main: java.lang.Object f()>(); z = \"j\"; return; } }",
    "alias;Main;@;3;x;y;100 | alias @ 3 x y~shared text \"k\"~aliases yes~demanded 7~
alias;Main;@;3;x;y;6 | refused OverBudget 6~
alias;Main;@;3;x;z;100 | alias @ 3 x z~aliases no~demanded 6~
alias;Main;@;3;x;w;100 | refused NoSuchPlace second~
alias;Main;@;3;w;x;100 | refused NoSuchPlace local~
alias;Main;@;3;w;v;100 | refused NoSuchPlace local~
alias;Main;@;4;w;v;100 | refused NoSuchPlace index~
alias;Main;main;4;w;v;100 | refused NoSuchPlace method~",
);

// A call on an interface: by class hierarchy analysis it may run the methods of both classes that implement it, and of no other.
const DISPATCH: (&str, &str) = (
    "interface I { java.lang.Object m(); } class A { } class B { } class Z { java.lang.Object m() { java.lang.Object o; o = new A; return o; } }
class C extends Z implements I { } class D implements I { java.lang.Object m() { java.lang.Object o; o = new B; return o; } }
class U { java.lang.Object m() { return null; } } class Main { static void main(java.lang.String[]) { I r; java.lang.Object x; r = new C;
x = interfaceinvoke r.<I: java.lang.Object m()>(); return; } }",
    "points-to;Main;@;2;x;100 | points-to @ 2 x~site <Z: java.lang.Object m()> 0 new A~site <D: java.lang.Object m()> 0 new B~sites 2~demanded 5~
points-to;Main;<U: java.lang.Object m()>;0;o;100 | refused NoSuchPlace method~",
);

// A method of an interface: the lowest runs.
const LOWEST: (&str, &str) = (
    "class A { } class B { } interface I { java.lang.Object m() { java.lang.Object o; o = new A; return o; } }
interface J implements I { java.lang.Object m() { java.lang.Object o; o = new B; return o; } } class C implements I, J { }
class Main { static void main(java.lang.String[]) { I r; java.lang.Object x; r = new C; x = interfaceinvoke r.<I: java.lang.Object m()>(); return; } }",
    "points-to;Main;@;2;x;100 | points-to @ 2 x~site <J: java.lang.Object m()> 0 new B~sites 1~demanded 3~",
);

// The lowest has no body, and hides the one above.
const HIDDEN: (&str, &str) = (
    "class A { } class B { } interface I { java.lang.Object m() { java.lang.Object o; o = new A; return o; } }
interface J implements I { java.lang.Object m(); } class C implements I, J { }
class Main { static void main(java.lang.String[]) { I r; java.lang.Object x; r = new C; x = interfaceinvoke r.<I: java.lang.Object m()>(); return; } }",
    "points-to;Main;@;2;x;100 | points-to @ 2 x~sites 0~demanded 1~",
);

// Two, of which none is lower.
const SEVERAL: (&str, &str) = (
    "class A { } class B { } interface I { java.lang.Object m() { java.lang.Object o; o = new A; return o; } }
interface J implements I { java.lang.Object m() { java.lang.Object o; o = new B; return o; } } interface K { java.lang.Object m() { return null; } } class C implements I, K { }
class Main { static void main(java.lang.String[]) { I r; java.lang.Object x; r = new C; x = interfaceinvoke r.<I: java.lang.Object m()>(); return; } }",
    "points-to;Main;@;2;x;100 | refused NotLinked AmbiguousDefault @ 1~",
);

// The same, with a method of the class's own.
const OWN: (&str, &str) = (
    "class A { } class B { } interface I { java.lang.Object m() { java.lang.Object o; o = new A; return o; } }
interface J implements I { java.lang.Object m() { java.lang.Object o; o = new B; return o; } } interface K { java.lang.Object m() { return null; } } class C implements I, K { java.lang.Object m() { return null; } }
class Main { static void main(java.lang.String[]) { I r; java.lang.Object x; r = new C; x = interfaceinvoke r.<I: java.lang.Object m()>(); return; } }",
    "points-to;Main;@;2;x;100 | points-to @ 2 x~sites 0~demanded 1~",
);

// Two again, of which none is lower. Below one stands a third, without a body, which the class doesn't implement.
const WITHOUT: (&str, &str) = (
    "class A { } class B { } interface I { java.lang.Object m() { java.lang.Object o; o = new A; return o; } }
interface J implements I { java.lang.Object m(); } interface K { java.lang.Object m() { return null; } } class C implements I, K { }
class Main { static void main(java.lang.String[]) { I r; java.lang.Object x; r = new C; x = interfaceinvoke r.<I: java.lang.Object m()>(); return; } }",
    "points-to;Main;@;2;x;100 | refused NotLinked AmbiguousDefault @ 1~",
);

// The same, with a method of the class's own.
const OVER: (&str, &str) = (
    "class A { } class B { } interface I { java.lang.Object m() { java.lang.Object o; o = new A; return o; } }
interface J implements I { java.lang.Object m(); } interface K { java.lang.Object m() { return null; } } class C implements I, K { java.lang.Object m() { return null; } }
class Main { static void main(java.lang.String[]) { I r; java.lang.Object x; r = new C; x = interfaceinvoke r.<I: java.lang.Object m()>(); return; } }",
    "points-to;Main;@;2;x;100 | points-to @ 2 x~sites 0~demanded 1~",
);

// Arrays in an array: what is stored into one of them, and the one itself.
const NESTED: (&str, &str) = (
    "class A { } class Main { static void main(java.lang.String[]) { java.lang.Object[][] a; java.lang.Object[] b; java.lang.Object o, x;
a = newmultiarray (java.lang.Object)[2][3]; b = a[0]; o = new A; b[1] = o; x = b[0]; return; } }",
    "points-to;Main;@;5;x;100 | points-to @ 5 x~site @ 2 new A~sites 1~demanded 14~
points-to;Main;@;2;b;100 | points-to @ 2 b~site @ 0 new java.lang.Object[]~sites 1~demanded 12~",
);

// That class, whose static field is set by an initializer of the stand-ins.
const HELLO: (&str, &str) = (
    AS_COMPILED,
    "points-to;Main;@;6;$r1;100 | points-to @ 6 $r1~site <java.lang.System: void <clinit>()> 0 new java.io.PrintStream~sites 1~demanded 7~",
);

/// Programs with calls, fields, arrays and exceptions.
pub const WORKED: [(&str, &str); 12] = [
    CALLS, BOXES, NAMES, STATICS, RECURSION, ITSELF, NOTHING, DISPATCH, HELLO, NESTED, THROWN, NULL,
];

/// Programs with methods of interfaces, and with texts.
pub const SHARED: [(&str, &str); 7] = [LOWEST, HIDDEN, SEVERAL, OWN, WITHOUT, OVER, TEXTS];
