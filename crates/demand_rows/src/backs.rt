//! The edges that end in a node where objects are tracked.
use super::programs::BACKS;
use super::rows::Asked;
use linked_text::first_wrong;
use std::test::Fail;

const ROWS: &str =
    "# From a return, to what was passed as the receiver and as an argument: from their locals in the method.
tracked 2.3.l0 = flow 2.2.l0, return 2.2 0.3.l0
tracked 2.3.l1 = flow 2.2.l1, return 2.2 0.3.l1
# A plain query has none of them.
into 2.3.l0 = flow 2.2.l0
into 2.3.l1 = flow 2.2.l1
# To a local that isn't passed comes what is returned.
tracked 2.3.l2 = return 2.2 0.3.l1
# So it does to one that is, where the call assigns it, and nothing else.
tracked 2.4.l1 = return 2.3 0.3.l1
# With an exception, what was passed comes back there too.
tracked 2.2!.l0 = flow 2.2.l0, return 2.2 0.2!.l0
tracked 2.3!.l1 = flow 2.3.l1, return 2.3 0.2!.l1
into 2.3!.l1 = flow 2.3.l1
tracked 2.3!.thrown = flow 2.3.r0, return 2.3 0.2!.thrown
# From the parameter itself, where its local is assigned again, and where two locals take it over.
tracked 2.5.l1 = flow 2.4.l1, return 2.4 1.4.p0
tracked 2.5.l2 = flow 2.4.l2, return 2.4 1.4.p1
# From both, where one local is passed twice.
tracked 2.6.l2 = flow 2.5.l2, return 2.5 1.4.p0, return 2.5 1.4.p1
# Nothing that the method does raises an exception.
tracked 2.5!.l2 = flow 2.5.l2
# Where a method begins, no call comes back.
tracked 2.0.l0 = -";

#[test]
fn come_back_to_what_was_passed(rt: HostRuntime) -> Result<(), Fail> {
    assert_eq!(rt; first_wrong(rt.alloc(), BACKS, &Asked, ROWS)?, None);
    Ok(())
}
