//! The law.
ghost use Rattle.link_rules.specs.WellLinked.{IsWellLinked};
ghost use Rattle.run_covers.specs.Covers.{IsCovered};
ghost use Rattle.run_origins.specs.Origins.{HasOrigins};

use link_program::Linked;

/// Each object that a slot of the top frame holds after a step came along an edge: a flow or a load within the frame, the edge of a call into a method,
/// or that of a return or an exception back from one; or it was in a static field. Objects keep their site and their class, and what a static field
/// holds some statement stores there.
///
/// The program is well linked, and the targets of its calls cover what its runs do, as in each program that linking gives.
pub fn steps_have_origins(linked: &Linked)
    requires well { IsWellLinked linked.now }
    requires covered { IsCovered linked.now }
    ensures { HasOrigins linked.now }
{}
