//! Programs that several rows are about.

/// Two calls of one method. Method 0 is `id`, and 1 is `main`.
pub const CALLS: &str = "class A { } class B { } class Main {
static java.lang.Object id(java.lang.Object) { java.lang.Object p; p := @parameter0: java.lang.Object; return p; }
static void main(java.lang.String[]) { java.lang.Object a, b, x, y; a = new A; b = new B;
x = staticinvoke <Main: java.lang.Object id(java.lang.Object)>(a);
y = staticinvoke <Main: java.lang.Object id(java.lang.Object)>(b); return; } }
";

/// That `x` may hold what comes back from the first call.
pub const CERTIFICATE: &str = "query 1.4.l2
start F 1.0.new
flow F 1 1.1.l0
flow F 2 1.2.l0
flow F 3 0.0.p0
flow F 4 0.1.l0
flow F 5 1.3.l2
flow F 6 1.4.l2
start C 1.0.new
flow C 8 1.1.l0
flow C 9 1.2.l0
push C 10 0.0.p0
flow C 11 0.1.l0
link C 10 0.0.p0
pop C 12 13 1.3.l2
flow C 14 1.4.l2
claim 7 15
";

/// A file that is opened and read by a method, and then closed.
pub const FILES: &str =
    "class F { void open() { return; } void read() { return; } void close() { return; } }
class Main { static void use(F) { F p; p := @parameter0: F; virtualinvoke p.<F: void open()>(); virtualinvoke p.<F: void read()>(); return; }
static void main(java.lang.String[]) { F f, g; f = new F; staticinvoke <Main: void use(F)>(f); g = f; virtualinvoke f.<F: void close()>(); return; } }
";

/// Its protocol.
pub const PROTOCOL: &str = "F closed;closed open opened;opened read opened;opened close closed";

/// Two boxes that are filled and read by the same methods.
pub const BOXES: &str = "class A { }
class B { }
class Box {
java.lang.Object v;
void set(java.lang.Object) {
Box r; java.lang.Object p;
r := @this: Box;
p := @parameter0: java.lang.Object;
r.<Box: java.lang.Object v> = p;
return;
}
java.lang.Object get() {
Box r; java.lang.Object q;
r := @this: Box;
q = r.<Box: java.lang.Object v>;
return q;
}
}
class Main {
static void main(java.lang.String[]) {
Box a, b; java.lang.Object o, p, x, y;
a = new Box;
b = new Box;
o = new A;
p = new B;
virtualinvoke a.<Box: void set(java.lang.Object)>(o);
virtualinvoke b.<Box: void set(java.lang.Object)>(p);
x = virtualinvoke a.<Box: java.lang.Object get()>();
y = virtualinvoke b.<Box: java.lang.Object get()>();
return;
}
}
";

/// An object that is made, copied and made again in a loop.
pub const LOOP: &str = "class A { }
class Main {
static void main(java.lang.String[]) {
A x, y;
x = new A;
y = x;
label1:
if 0 == 1 goto label2;
x = new A;
goto label1;
label2:
return;
}
}
";
