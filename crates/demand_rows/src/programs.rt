//! The texts of the programs. Before each stand the numbers of its methods; the root is the last one.

/// 0 `main`. Its locals are `s`, `x`, `y`, `t`, `n`, its statements: 0 the parameter, 1 `new`, 2 a cast, 3 a division, 4 a copy, 5 a jump back to 2,
/// 6 `return`, 7 what is caught, 8 `throw`. The handler at 7 covers 2 and 8.
pub const FRAMES: &str =
    "class A { } class Main { static void main(java.lang.String[]) { java.lang.String[] s; java.lang.Object x, y; java.lang.Throwable t; int n;
s := @parameter0: java.lang.String[];
x = new A;
again: y = (A) x;
behind: n = 1 / 0;
x = y;
if 0 == 1 goto again;
return;
handler: t := @caughtexception;
last: throw t;
end:
catch java.lang.ClassCastException from again to behind with handler;
catch java.lang.NullPointerException from last to end with handler; } }";

/// 0 `C.m`, 1 `D.m`, 2 `main`. Both calls of `main`, at 2 and 3, may run both others; the second passes null.
pub const DISPATCH: &str = r#"class A { } interface I { java.lang.Object m(java.lang.Object); }
class C implements I { java.lang.Object m(java.lang.Object) { C r; java.lang.Object p;
r := @this: C;
p := @parameter0: java.lang.Object;
return p; } }
class D implements I { java.lang.Object m(java.lang.Object) { return "d"; } }
class Main { static void main(java.lang.String[]) { I i; java.lang.Object x, y;
i = new C;
x = new A;
y = interfaceinvoke i.<I: java.lang.Object m(java.lang.Object)>(x);
y = interfaceinvoke i.<I: java.lang.Object m(java.lang.Object)>(null);
return; } }"#;

/// 0 `main`. The field `v` has the number 1, the static field `s` the number 1.
pub const HEAP: &str =
    r#"class Box { java.lang.Object v; static java.lang.Object r; static java.lang.Object s; }
class Main { static void main(java.lang.String[]) { Box b; java.lang.Object x, y; java.lang.Object[] a;
b = new Box;
a = newarray (java.lang.Object)[1];
b.<Box: java.lang.Object v> = "k";
a[0] = b;
b.<Box: java.lang.Object v> = null;
x = b.<Box: java.lang.Object v>;
y = a[0];
<Box: java.lang.Object s> = x;
<Box: java.lang.Object s> = class "LBox;";
y = <Box: java.lang.Object s>;
return; } }"#;

/// 0 `f`, 1 `main`. One text is returned, copied, cast, passed and thrown, and is asked for its length and its monitor, as another is.
pub const TEXTS: &str = r#"class Main { static java.lang.Object f(java.lang.Object) {
return "k"; }
static void main(java.lang.String[]) { java.lang.Object x; int n;
n = lengthof "k";
entermonitor "k";
x = "k";
x = (java.lang.String) "k";
x = staticinvoke <Main: java.lang.Object f(java.lang.Object)>("k");
n = lengthof "other";
throw "k"; } }"#;

/// 0 `main`. The class above all has the field 1, `Sub` the field 2, and what may be thrown the field 3.
pub const OBJECTS: &str =
    r#"class java.lang.Object { java.lang.Object v; } class Sub { java.lang.Object w; }
class Main { static void main(java.lang.String[]) { java.lang.Object a, b;
a = newarray (int)[1];
b = new Sub;
a = new java.lang.Object;
a.<java.lang.Object: java.lang.Object v> = b;
a = "k";
a = class "LSub;";
return; } }"#;

/// 0 `main`. Its locals are `a`, `b`, `c`. Arrays of two levels, of one, since the second has no length, and of three.
pub const LEVELS: &str =
    "class Main { static void main(java.lang.String[]) { java.lang.Object[][] a; java.lang.Object[] b; java.lang.Object[][][] c;
a = newmultiarray (java.lang.Object)[2][3];
b = a[0];
b[1] = a;
c = newmultiarray (java.lang.Object)[2][][];
c = newmultiarray (java.lang.Object)[2][3][4];
return; } }";

/// 0 `id`, 1 `main`.
pub const TWO_CALLS: &str = "class A { }
class B { }
class Main {
static java.lang.Object id(java.lang.Object) {
java.lang.Object p;
p := @parameter0: java.lang.Object;
return p;
}
static void main(java.lang.String[]) {
java.lang.Object a, b, x, y;
a = new A;
b = new B;
x = staticinvoke <Main: java.lang.Object id(java.lang.Object)>(a);
y = staticinvoke <Main: java.lang.Object id(java.lang.Object)>(b);
return;
}
}
";

/// 0 `put`, 1 `main`.
pub const PASSED_BOX: &str = "class Box { java.lang.Object v; } class A { }
class Main { static void put(Box) { Box p, r; A o; p := @parameter0: Box; r = p; p = new Box; o = new A; r.<Box: java.lang.Object v> = o; return; }
static void main(java.lang.String[]) { Box a, b; java.lang.Object x; a = new Box; b = a; staticinvoke <Main: void put(Box)>(a);
x = b.<Box: java.lang.Object v>; return; } }";

/// 0 `main`. The fields `n` and `v` have the numbers 1 and 2.
pub const STATIC_BOX: &str = "class Box { Box n; java.lang.Object v; } class A { }
class Main { static Box s; static void main(java.lang.String[]) { Box a, b, c, d; java.lang.Object o, x; a = new Box; b = new Box; o = new A;
a.<Box: Box n> = b; b.<Box: java.lang.Object v> = o; <Main: Box s> = a; c = <Main: Box s>; d = c.<Box: Box n>; x = d.<Box: java.lang.Object v>;
return; } }";

/// 0 `make`, 1 `main`.
pub const RECURSION: &str = "class N { N next; }
class Main { static N make(N) { N p, q; p := @parameter0: N; q = new N; q.<N: N next> = p; if 0 == 1 goto label1;
q = staticinvoke <Main: N make(N)>(q); label1: return q; }
static void main(java.lang.String[]) { N x; x = staticinvoke <Main: N make(N)>(null); return; } }";

/// 0 `inner`, 1 `outer`, 2 `main`. The field `v` has the number 1.
pub const ESCAPES: &str = "class A { } class E extends java.lang.Exception { java.lang.Object v; }
class Main { static void inner() { E e; A a; e = new E; a = new A; e.<E: java.lang.Object v> = a; throw e; }
static void outer() { staticinvoke <Main: void inner()>(); return; }
static void main(java.lang.String[]) { java.lang.Throwable t; java.lang.Object x; label1: staticinvoke <Main: void outer()>(); label2: return;
label3: t := @caughtexception; x = t.<E: java.lang.Object v>; return; catch java.lang.Throwable from label1 to label2 with label3; } }";

/// 0 `Z.m`, 1 `D.m`, 2 `main`. The method of `U` isn't reached.
pub const INHERITED: &str =
    "interface I { java.lang.Object m(); } class A { } class B { } class Z { java.lang.Object m() { java.lang.Object o; o = new A; return o; } }
class C extends Z implements I { } class D implements I { java.lang.Object m() { java.lang.Object o; o = new B; return o; } }
class U { java.lang.Object m() { return null; } } class Main { static void main(java.lang.String[]) { I r; java.lang.Object x; r = new C;
x = interfaceinvoke r.<I: java.lang.Object m()>(); return; } }";

/// 0 `main`.
pub const NULL_RECEIVER: &str =
    "class Main { static void main(java.lang.String[]) { java.lang.Object a; java.lang.Throwable t; label1: a = null;
virtualinvoke a.<java.lang.Object: int hashCode()>(); label2: return; label3: t := @caughtexception; return;
catch java.lang.NullPointerException from label1 to label2 with label3; } }";

/// 0 `f`, 1 `main`. The texts are `k`, 0, and `j`, 1.
pub const SAME_TEXT: &str = r#"class Main { static java.lang.Object f() { return "k"; }
static void main(java.lang.String[]) { java.lang.Object x, y, z; x = "k"; y = staticinvoke <Main: java.lang.Object f()>(); z = "j"; return; } }"#;

/// 0 `main`. It makes an object last; the texts are `b`, 0, and `a`, 1, the class constants `LB;`, 0, and `LA;`, 1.
pub const ALL_SORTS: &str =
    r#"class Main { static void main(java.lang.String[]) { java.lang.Object x;
x = "b"; if 0 == 1 goto end; x = "a"; if 0 == 1 goto end; x = class "LB;"; if 0 == 1 goto end; x = class "LA;"; if 0 == 1 goto end;
x = new Main; end: return; } }"#;

/// 0 `main`. A store of null demands nothing.
pub const STORED_NULL: &str =
    "class Box { java.lang.Object v; } class Main { static void main(java.lang.String[]) { Box a, c; java.lang.Object x;
a = new Box; c = new Box; c.<Box: java.lang.Object v> = null; x = a.<Box: java.lang.Object v>; return; } }";

/// 0 `open`, 1 `read`, 2 `close`, 3 `use`, 4 `main`.
pub const FILES: &str =
    "class F { void open() { return; } void read() { return; } void close() { return; } }
class Main { static void use(F) { F p; p := @parameter0: F; virtualinvoke p.<F: void open()>(); virtualinvoke p.<F: void read()>(); return; }
static void main(java.lang.String[]) { F f, g; f = new F; staticinvoke <Main: void use(F)>(f); g = f; virtualinvoke f.<F: void close()>();
return; } }";

/// The same, and another name of the file is read last.
pub const FILES_READ_AGAIN: &str =
    "class F { void open() { return; } void read() { return; } void close() { return; } }
class Main { static void use(F) { F p; p := @parameter0: F; virtualinvoke p.<F: void open()>(); virtualinvoke p.<F: void read()>(); return; }
static void main(java.lang.String[]) { F f, g; f = new F; staticinvoke <Main: void use(F)>(f); g = f; virtualinvoke f.<F: void close()>();
virtualinvoke g.<F: void read()>(); return; } }";

/// 0 `use`, 1 `again`, 2 `main`. The locals of `main` are `c`, `x` and `y`; it calls `use` at 2 and 3, and `again` at 4 and 5.
pub const BACKS: &str = "class A { }
class C { java.lang.Object use(java.lang.Object) { C r; java.lang.Object p;
r := @this: C;
p := @parameter0: java.lang.Object;
entermonitor p;
return p; }
static void again(java.lang.Object, java.lang.Object) { java.lang.Object p, q, s;
p := @parameter0: java.lang.Object;
q := @parameter1: java.lang.Object;
s := @parameter1: java.lang.Object;
p = null;
return; } }
class Main { static void main(java.lang.String[]) { C c; java.lang.Object x, y;
c = new C;
x = new A;
y = virtualinvoke c.<C: java.lang.Object use(java.lang.Object)>(x);
x = virtualinvoke c.<C: java.lang.Object use(java.lang.Object)>(x);
staticinvoke <C: void again(java.lang.Object,java.lang.Object)>(x, y);
staticinvoke <C: void again(java.lang.Object,java.lang.Object)>(y, y);
return; } }";
