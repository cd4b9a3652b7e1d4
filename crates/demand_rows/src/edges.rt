//! The edges that end in a node.
use super::programs::{DISPATCH, ESCAPES, FRAMES, HEAP, TWO_CALLS};
use super::rows::Asked;
use linked_text::first_wrong;
use std::test::Fail;

// Within a frame: a parameter, a jump back, a cast, a division, a copy, a handler and a throw; then what isn't in the program, and what the root passes
// and gets.
const OF_FRAMES: &str = "into 0.0.p0 = call 1.3.l1
into 0.0.l0 = -
into 0.1.l0 = flow 0.0.p0
into 0.1.p0 = flow 0.0.p0
into 0.2.l1 = flow 0.1.new, flow 0.5.l1
into 0.2.l2 = flow 0.1.l2, flow 0.5.l2
into 0.3.l2 = flow 0.2.l1
into 0.4.l4 = -
into 0.4.l2 = flow 0.3.l2
into 0.5.l1 = flow 0.4.l2
into 0.7.l2 = flow 0.2!.l2, flow 0.8!.l2
into 0.7.p0 = flow 0.2!.p0, flow 0.8!.p0
into 0.7.caught = flow 0.2!.thrown, flow 0.8!.thrown
into 0.8.l3 = flow 0.7.caught
into 0.8.caught = flow 0.7.caught
into 0.2!.l1 = flow 0.2.l1
into 0.2!.l2 = flow 0.2.l2
into 0.2!.caught = flow 0.2.caught
into 0.2!.thrown = flow 0.2.r4
into 0.3!.thrown = flow 0.3.r5
into 0.8!.thrown = flow 0.8.r0, flow 0.8.l3
into 0.1.new = -
into 0.1.thrown = -
into 0.7!.thrown = -
into 0.1.l5 = -
into 1.2.l1 = flow 1.1.new
into 1.3!.thrown = return 1.3 0.2!.thrown, return 1.3 0.3!.thrown, return 1.3 0.8!.thrown";

// Calls that may run two methods.
const OF_DISPATCH: &str = "into 0.0.this = call 2.2.l0, call 2.3.l0
into 0.0.p0 = call 2.2.l1
into 1.0.p0 = call 2.2.l1
into 0.1.l0 = flow 0.0.this
into 0.2.l1 = flow 0.1.p0
into 0.2.this = flow 0.1.this
into 2.3.l2 = return 2.2 0.2.l1, return 2.2 1.0.t0
into 2.4.l2 = return 2.3 0.2.l1, return 2.3 1.0.t0
into 2.3.l1 = flow 2.2.l1
into 2.2!.thrown = flow 2.2.r0
into 2.2!.l2 = flow 2.2.l2
into 2.0.this = -
into 3.3!.thrown = return 3.3 2.2!.thrown, return 3.3 2.3!.thrown";

// Two calls of one method: what it returns goes back to the one that calls.
const OF_TWO_CALLS: &str = "into 0.0.p0 = call 1.2.l0, call 1.3.l1
into 1.3.l2 = return 1.2 0.1.l0
into 1.4.l3 = return 1.3 0.1.l0
into 1.4.l2 = flow 1.3.l2";

// Fields, arrays and static fields, and what each of these statements may raise.
const OF_HEAP: &str = "into 0.6.l1 = load 1 0.5.l0
into 0.7.l2 = load 0 0.6.l3
into 0.10.l2 = jump 0.7.l1, jump 0.8.k0
into 0.1!.thrown = flow 0.1.r3
into 0.2!.thrown = flow 0.2.r0
into 0.3!.thrown = flow 0.3.r0, flow 0.3.r1, flow 0.3.r2
into 0.6!.thrown = flow 0.6.r0, flow 0.6.r1";

// What leaves a method comes to the call of it, and into the handler around the call.
const OF_ESCAPES: &str = "into 0.3!.thrown = flow 0.3.r0, flow 0.3.l0
into 1.0!.thrown = return 1.0 0.2!.thrown, return 1.0 0.3!.thrown
into 2.0!.thrown = return 2.0 1.0!.thrown
into 2.2.caught = flow 2.0!.thrown";

#[test]
fn all_that_end_in_a_node(rt: HostRuntime) -> Result<(), Fail> {
    for (text, rows) in [
        (FRAMES, OF_FRAMES),
        (DISPATCH, OF_DISPATCH),
        (TWO_CALLS, OF_TWO_CALLS),
        (HEAP, OF_HEAP),
        (ESCAPES, OF_ESCAPES),
    ] {
        assert_eq!(rt; first_wrong(rt.alloc(), text, &Asked, rows)?, None);
    }
    Ok(())
}
