//! The texts of the programs. Before each stand the numbers of its methods; the root is the last one.

/// 0 `id`, 1 `main`. Its locals are `a`, `b`, `x`, `y`.
pub const TWO_CALLS: &str = "class A { } class B { }
class Main { static java.lang.Object id(java.lang.Object) { java.lang.Object p;
p := @parameter0: java.lang.Object;
return p; }
static void main(java.lang.String[]) { java.lang.Object a, b, x, y;
a = new A;
b = new B;
x = staticinvoke <Main: java.lang.Object id(java.lang.Object)>(a);
y = staticinvoke <Main: java.lang.Object id(java.lang.Object)>(b);
return; } }";

/// 0 `main`. Its locals are `b`, `o`, `x`.
pub const BOX: &str = "class A { } class Box { java.lang.Object v; }
class Main { static void main(java.lang.String[]) { Box b; java.lang.Object o, x;
b = new Box;
o = new A;
b.<Box: java.lang.Object v> = o;
x = b.<Box: java.lang.Object v>;
return; } }";

/// 0 `f`, 1 `main`. The local is `x`.
pub const TEXT: &str = r#"class Main { static java.lang.Object f() {
return "k"; }
static void main(java.lang.String[]) { java.lang.Object x;
x = staticinvoke <Main: java.lang.Object f()>();
return; } }"#;

/// 0 `main`. Its locals are `o`, `x`.
pub const STATIC: &str = "class A { }
class Main { static java.lang.Object s; static void main(java.lang.String[]) { java.lang.Object o, x;
o = new A;
<Main: java.lang.Object s> = o;
x = <Main: java.lang.Object s>;
return; } }";

/// 0 `main`. Its locals are `a`, `b`.
pub const NESTED: &str =
    "class Main { static void main(java.lang.String[]) { java.lang.Object[][] a; java.lang.Object[] b;
a = newmultiarray (java.lang.Object)[2][3];
b = a[0];
return; } }";
