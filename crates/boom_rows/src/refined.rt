//! Refined calls, with the replies found by hand. Rows are as those of the worked programs.
use super::rows::first_wrong_in;
use asked_text::SMALL;
use std::test::Fail;

// A call on an interface, whose receiver is an object of a class that inherits its method.
const DISPATCH: (&str, &str) = (
    "interface I { java.lang.Object m(); } class A { } class B { } class Z { java.lang.Object m() { java.lang.Object o; o = new A; return o; } }
class C extends Z implements I { } class D implements I { java.lang.Object m() { java.lang.Object o; o = new B; return o; } }
class U { java.lang.Object m() { return null; } } class Main { static void main(java.lang.String[]) { I r; java.lang.Object x; r = new C;
x = interfaceinvoke r.<I: java.lang.Object m()>(); return; } }",
    "refined;Main;@;2;x;1;100 | refined @ 2 x~narrowed 1~site <Z: java.lang.Object m()> 0 new A~sites 1~demanded 3~
refined;Main;@;2;x;0;100 | refined @ 2 x~narrowed 0~site <Z: java.lang.Object m()> 0 new A~site <D: java.lang.Object m()> 0 new B~sites 2~demanded 5~
refined;Main;@;2;x;8;100 | refined @ 2 x~narrowed 1~site <Z: java.lang.Object m()> 0 new A~sites 1~demanded 3~
refined;Main;@;0;x;1;1 | refined @ 0 x~narrowed 0~sites 0~demanded 1~
refined;Main;@;2;x;1;2 | refused OverBudget 2~
refined;Main;@;2;x;0;4 | refused OverBudget 4~
refined;Main;<D: java.lang.Object m()>;1;o;0;100 | refined <D: java.lang.Object m()> 1 o~narrowed 0~site <D: java.lang.Object m()> 0 new B~sites 1~demanded 2~
refined;Main;<D: java.lang.Object m()>;1;o;1;100 | refined <D: java.lang.Object m()> 1 o~narrowed 1~sites 0~demanded 0~
refined;Main;<D: java.lang.Object m()>;2;o;1;100 | refused NoSuchPlace index~
refined;Main;@;2;y;1;100 | refused NoSuchPlace local~
refined;Main;<U: java.lang.Object m()>;0;o;1;100 | refused NoSuchPlace method~
refined;Main;@;2;x;9;100 | refused Usage~
refined;Main;@;2;x;01;100 | refused Usage~
refined;Main;@;2;x;1 | refused Usage~",
);

// The same on null, which no method is called on.
const NOWHERE: (&str, &str) = (
    "interface I { java.lang.Object m(); } class A { } class B { } class Z { java.lang.Object m() { java.lang.Object o; o = new A; return o; } }
class C extends Z implements I { } class D implements I { java.lang.Object m() { java.lang.Object o; o = new B; return o; } }
class U { java.lang.Object m() { return null; } } class Main { static void main(java.lang.String[]) { I r; java.lang.Object x; r = null;
x = interfaceinvoke r.<I: java.lang.Object m()>(); return; } }",
    "refined;Main;@;2;x;1;100 | refined @ 2 x~narrowed 2~sites 0~demanded 1~",
);

// What the first call gives is what the second one is on. A first round looks at both in the program that was read, so the second call needs a second
// round. The method that then nothing calls calls another one, by a static call: its pair of a call and a target counts too.
const CHAIN: (&str, &str) = (
    "interface I { I m(); } class C implements I { I m() { I o; o = new C; return o; } }
class D implements I { I m() { I o; o = staticinvoke <Main: I b()>(); return o; } }
class Main { static I b() { I o; o = new D; return o; }
static void main(java.lang.String[]) { I r, x, y; r = new C; x = interfaceinvoke r.<I: I m()>(); y = interfaceinvoke x.<I: I m()>(); return; } }",
    "refined;Main;@;3;y;0;100 | refined @ 3 y~narrowed 0~site <C: I m()> 0 new C~site <Main: I b()> 0 new D~sites 2~demanded 6~
refined;Main;@;3;y;1;100 | refined @ 3 y~narrowed 1~site <C: I m()> 0 new C~site <Main: I b()> 0 new D~sites 2~demanded 6~
refined;Main;@;3;y;2;100 | refined @ 3 y~narrowed 3~site <C: I m()> 0 new C~sites 1~demanded 3~
refined;Main;<Main: I b()>;1;o;1;100 | refined <Main: I b()> 1 o~narrowed 1~site <Main: I b()> 0 new D~sites 1~demanded 2~
refined;Main;<Main: I b()>;1;o;2;100 | refined <Main: I b()> 1 o~narrowed 3~sites 0~demanded 0~",
);

#[test]
fn refines_calls(rt: HostRuntime) -> Result<(), Fail> {
    for rows in [DISPATCH, NOWHERE, CHAIN] {
        assert_eq!(rt; first_wrong_in(&rt, SMALL, rows)?, None);
    }
    Ok(())
}
