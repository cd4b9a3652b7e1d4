//! Programs about which several crates have rows. Before each stand the numbers of its methods; the root is the last one.

/// 0 `set`, 1 `get`, 2 `main`.
pub const TWO_BOXES: &str = "class A { }
class B { }
class Box {
java.lang.Object v;
void set(java.lang.Object) {
Box r; java.lang.Object p;
r := @this: Box;
p := @parameter0: java.lang.Object;
r.<Box: java.lang.Object v> = p;
return;
}
java.lang.Object get() {
Box r; java.lang.Object q;
r := @this: Box;
q = r.<Box: java.lang.Object v>;
return q;
}
}
class Main {
static void main(java.lang.String[]) {
Box a, b; java.lang.Object o, p, x, y;
a = new Box;
b = new Box;
o = new A;
p = new B;
virtualinvoke a.<Box: void set(java.lang.Object)>(o);
virtualinvoke b.<Box: void set(java.lang.Object)>(p);
x = virtualinvoke a.<Box: java.lang.Object get()>();
y = virtualinvoke b.<Box: java.lang.Object get()>();
return;
}
}
";
