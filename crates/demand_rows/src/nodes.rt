//! Nodes, start nodes, stores, and the classes and fields of sites.
use super::programs::{DISPATCH, FRAMES, HEAP, LEVELS, OBJECTS, TEXTS};
use super::rows::Asked;
use linked_text::first_wrong;
use std::test::Fail;

const OF_FRAMES: &str = "node 0.0.l4 = yes
node 0.0.l5 = no
node 0.8.l0 = yes
node 0.9.l0 = no
node 1.4.l1 = yes
node 2.0.l0 = no
node 0.3.p0 = yes
node 0.3.p1 = no
node 0.3.this = no
node 0.3.caught = yes
node 0.2.thrown = no
node 0.1.new = yes
node 0.2.new = no
node 0.2.r4 = yes
node 0.2.r0 = no
node 0.3.r5 = yes
node 0.3.r6 = no
node 0.8.r0 = yes
node 1.3.r0 = no
node 0.2!.thrown = yes
node 0.2!.l0 = yes
node 0.2!.caught = yes
node 0.2!.r4 = no
node 1.3!.thrown = yes
node 0.1!.l0 = no
node 0.4!.l0 = no
node 0.6!.l0 = no
starts 0.8.r0 = 0.8.r0";

const OF_DISPATCH: &str = "node 0.2.this = yes
node 2.2.r0 = yes
node 1.0.t0 = yes
starts t0 = 1.0.t0";

// The root stores a text into the array that it passes.
const OF_HEAP: &str = "node 0.8.k0 = yes
node 0.8.t0 = no
node 0.2!.t0 = no
starts 0.1.new = 0.1.new
starts 0.2.new = -
starts 0.3.r2 = 0.3.r2
starts 0.2.r1 = -
starts t0 = 0.2.t0
starts t1 = -
starts k0 = 0.8.k0
stores 1 = 0.2.l0 0.2.t0
stores 0 = 0.3.l3 0.3.l0, 1.2.l1 1.2.l0
stores 2 = -
stores 9 = -
class 0.3.r2 = java.lang.ArrayStoreException
class 0.3.r3 = -";

// A text that is only asked for its length has a class and no start node.
const OF_TEXTS: &str = "node 1.0.t0 = no
node 1.1.t0 = no
node 1.2.t0 = yes
node 1.3!.t0 = no
starts t0 = 0.0.t0 1.2.t0 1.3.t0 1.4.t0 1.6.t0
starts t1 = -
class t1 = java.lang.String
class t2 = -
class k0 = -";

// An array has its elements, and each field of the class above all.
const OF_OBJECTS: &str = "class 0.0.new = java.lang.Object
class 0.1.new = Sub
class 0.2.new = java.lang.Object
class 0.3.new = -
class 0.0.r3 = java.lang.NegativeArraySizeException
class 0.3.r0 = java.lang.NullPointerException
class t0 = java.lang.String
class k0 = java.lang.Class
field 0.0.new 0 = yes
field 0.0.new 1 = yes
field 0.0.new 2 = no
field 0.1.new 0 = no
field 0.1.new 1 = yes
field 0.1.new 2 = yes
field 0.1.new 3 = no
field 0.2.new 0 = no
field 0.2.new 1 = yes
field 0.2.new 2 = no
field 0.3.new 1 = no
field 0.3.r0 1 = yes
field 0.3.r0 3 = yes
field t0 1 = yes
field t0 3 = no
field k0 9 = no";

// Each inner level has a variable, a site and a store into the level outside it.
const OF_LEVELS: &str = "node 0.0.new = yes
node 0.0.n0 = no
node 0.0.n1 = yes
node 0.0.n2 = no
node 0.0!.n1 = no
node 0.1.n1 = no
node 0.3.n1 = no
node 0.4.n2 = yes
node 0.4.n3 = no
node 0.4.r3 = yes
starts 0.0.n1 = 0.0.n1
starts 0.0.n2 = -
stores 0 = 0.0.new 0.0.n1, 0.2.l1 0.2.l0, 0.4.new 0.4.n1, 0.4.n1 0.4.n2, 1.2.l1 1.2.l0
class 0.4.n2 = java.lang.Object
class 0.3.n1 = -
field 0.4.n2 0 = yes
field 0.3.n1 0 = no";

#[test]
fn nodes_and_sites(rt: HostRuntime) -> Result<(), Fail> {
    for (text, rows) in [
        (FRAMES, OF_FRAMES),
        (DISPATCH, OF_DISPATCH),
        (HEAP, OF_HEAP),
        (TEXTS, OF_TEXTS),
        (OBJECTS, OF_OBJECTS),
        (LEVELS, OF_LEVELS),
    ] {
        assert_eq!(rt; first_wrong(rt.alloc(), text, &Asked, rows)?, None);
    }
    Ok(())
}
