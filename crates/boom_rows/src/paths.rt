//! Queries of paths, with the replies found by hand. Rows are as those of the worked programs.
use super::rows::first_wrong_in;
use asked_text::SMALL;
use std::test::Fail;

// Fields of fields, and what is refused: a class that isn't declared, a field that it doesn't declare, behind the place, and a budget.
const FIELDS: (&str, &str) = (
    "class Box { Box n; java.lang.Object v; } class A { } class Main { static Box s;
static void main(java.lang.String[]) { Box a, b, c, d; java.lang.Object o, x; a = new Box; b = new Box; o = new A; a.<Box: Box n> = b;
b.<Box: java.lang.Object v> = o; <Main: Box s> = a; c = <Main: Box s>; d = c.<Box: Box n>; x = d.<Box: java.lang.Object v>; return; } }",
    "paths;Main;@;5;a;Box:n,Box:v;100 | paths @ 5 a Box:n,Box:v~site @ 2 new A~sites 1~demanded 13~
paths;Main;@;5;a;Box:n,Box:v;13 | paths @ 5 a Box:n,Box:v~site @ 2 new A~sites 1~demanded 13~
paths;Main;@;5;a;Box:v;100 | paths @ 5 a Box:v~sites 0~demanded 13~
paths;Main;@;5;a;Box:n,Box:v;12 | refused OverBudget 12~
paths;Main;@;5;a;Box:z;0 | refused NoSuchPlace field~
paths;Main;@;5;a;Box:n,Bin:v;0 | refused NoSuchPlace field~
paths;Main;@;5;a;Main:s;0 | refused NoSuchPlace field~
paths;Main;@;5;w;Box:z;0 | refused NoSuchPlace local~
paths;Main;@;10;a;Box:z;0 | refused NoSuchPlace index~
paths;Main;main;5;a;Box:z;0 | refused NoSuchPlace method~
paths;Main;@;5;a;Box;100 | refused Usage~
paths;Main;@;5;a;Box:v,;100 | refused Usage~",
);

// An array in an array, and the root's own array, whose store is one of field 0 too.
const CELLS: (&str, &str) = (
    "class A { } class Main { static void main(java.lang.String[]) { java.lang.Object[] a, b; A o; a = newarray (java.lang.Object)[2];
b = newarray (java.lang.Object)[2]; o = new A; a[0] = o; b[1] = a; return; } }",
    "paths;Main;@;5;b;[],[];100 | paths @ 5 b [],[]~site @ 2 new A~sites 1~demanded 17~
paths;Main;@;5;b;[];100 | paths @ 5 b []~site @ 0 new java.lang.Object[]~sites 1~demanded 17~
paths;Main;@;5;b;[],[],[];100 | paths @ 5 b [],[],[]~sites 0~demanded 17~",
);

// A field is that of the class which declares it.
const PARENT: (&str, &str) = (
    "class A { } class P { java.lang.Object f; } class Q extends P { } class Main { static void main(java.lang.String[]) { Q q; A o; q = new Q; o = new A;
q.<P: java.lang.Object f> = o; return; } }",
    "paths;Main;@;3;q;P:f;100 | paths @ 3 q P:f~site @ 1 new A~sites 1~demanded 6~
paths;Main;@;3;q;Q:f;100 | refused NoSuchPlace field~
paths;Main;@;3;o;P:f;100 | paths @ 3 o P:f~sites 0~demanded 6~",
);

#[test]
fn follows_paths(rt: HostRuntime) -> Result<(), Fail> {
    for rows in [FIELDS, CELLS, PARENT] {
        assert_eq!(rt; first_wrong_in(&rt, SMALL, rows)?, None);
    }
    Ok(())
}
