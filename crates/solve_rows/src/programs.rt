//! The texts of the programs. Before each stand the numbers of its methods; the root is the last one.

/// 0 `main`, which builds a list of three cells and reads it to its end.
pub const THREE_CELLS: &str = "class N { N next; }
class Main { static void main(java.lang.String[]) { N a, b, c, x, y, z; a = new N; b = new N; b.<N: N next> = a; c = new N; c.<N: N next> = b;
x = c; y = x.<N: N next>; z = y.<N: N next>; return; } }";

/// 0 `set`, 1 `mid`, which calls `set` at 2, and 2 `main`, with calls of `mid` at 3 and 5. The second one puts into the second box what came out of the
/// first one.
pub const PASSED_ON: &str = "class A { }
class Box { java.lang.Object v; }
class Main {
static void set(Box, java.lang.Object) { Box r; java.lang.Object p; r := @parameter0: Box; p := @parameter1: java.lang.Object;
r.<Box: java.lang.Object v> = p; return; }
static void mid(Box, java.lang.Object) { Box r; java.lang.Object p; r := @parameter0: Box; p := @parameter1: java.lang.Object;
staticinvoke <Main: void set(Box,java.lang.Object)>(r, p); return; }
static void main(java.lang.String[]) { Box a, b; java.lang.Object o, x, y;
a = new Box;
b = new Box;
o = new A;
staticinvoke <Main: void mid(Box,java.lang.Object)>(a, o);
x = a.<Box: java.lang.Object v>;
staticinvoke <Main: void mid(Box,java.lang.Object)>(b, x);
y = b.<Box: java.lang.Object v>;
return;
}
}
";

/// 0 `main`, which copies one object from local to local.
pub const COPIES: &str = "class A { }
class Main { static void main(java.lang.String[]) { A a, b, c, d; a = new A; b = a; c = b; d = c; return; } }";

/// 0 `set`, 1 `many`, which calls `set` at 2 to 13, and 2 `main`, with calls of `many` at 4 and 5. The calls of `set` are a crowd, whose marks are split.
pub const CROWDED: &str = "class A { }
class B { }
class Box { java.lang.Object v; }
class Main {
static void set(Box, java.lang.Object) { Box r; java.lang.Object p; r := @parameter0: Box; p := @parameter1: java.lang.Object;
r.<Box: java.lang.Object v> = p; return; }
static void many(Box, java.lang.Object) { Box r; java.lang.Object p; r := @parameter0: Box; p := @parameter1: java.lang.Object;
staticinvoke <Main: void set(Box,java.lang.Object)>(r, p);
staticinvoke <Main: void set(Box,java.lang.Object)>(r, p);
staticinvoke <Main: void set(Box,java.lang.Object)>(r, p);
staticinvoke <Main: void set(Box,java.lang.Object)>(r, p);
staticinvoke <Main: void set(Box,java.lang.Object)>(r, p);
staticinvoke <Main: void set(Box,java.lang.Object)>(r, p);
staticinvoke <Main: void set(Box,java.lang.Object)>(r, p);
staticinvoke <Main: void set(Box,java.lang.Object)>(r, p);
staticinvoke <Main: void set(Box,java.lang.Object)>(r, p);
staticinvoke <Main: void set(Box,java.lang.Object)>(r, p);
staticinvoke <Main: void set(Box,java.lang.Object)>(r, p);
staticinvoke <Main: void set(Box,java.lang.Object)>(r, p);
return; }
static void main(java.lang.String[]) { Box a, b; java.lang.Object o, p, x, y;
a = new Box;
b = new Box;
o = new A;
p = new B;
staticinvoke <Main: void many(Box,java.lang.Object)>(a, o);
staticinvoke <Main: void many(Box,java.lang.Object)>(b, p);
x = a.<Box: java.lang.Object v>;
y = b.<Box: java.lang.Object v>;
return;
}
}
";
