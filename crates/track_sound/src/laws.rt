//! The laws.
ghost use Rattle.link_rules.specs.WellLinked.{IsWellLinked};
ghost use Rattle.run_covers.specs.Covers.{IsCovered};
ghost use Rattle.track_sound.specs.Formals.{HoldsFormals};
ghost use Rattle.track_sound.specs.Sound.{HasAllSent, HasValuesAbove, HasWeightsAbove, IsSafeWithoutFindings, LinksAreTrackSound};

use link_program::Linked;

/// Where a method may be left, a settled formal still holds what was passed: what the caller's local does that was passed at its position.
///
/// The program is well linked, and the targets of its calls cover what its runs do, as in each program that linking gives.
pub fn settled_formals(linked: &Linked)
    requires well { IsWellLinked linked.now }
    requires covered { IsCovered linked.now }
    ensures { HoldsFormals linked.now }
{}

/// In each run that has met a protocol so far, the system of each site lies above the states of its objects: for each slot of each frame, at the frame
/// on top those in which they are, and at a frame that waits those in which they were before the event of its call. So do the values of the systems; and
/// any events lead to the state of each object, whether something holds it or not.
pub fn values_above(linked: &Linked)
    requires well { IsWellLinked linked.now }
    requires covered { IsCovered linked.now }
    ensures slots { HasValuesAbove linked.now }
    ensures weights { HasWeightsAbove linked.now }
    ensures all { HasAllSent linked.now }
{}

/// Where nothing is found, no run, of any length, breaks the protocol.
pub fn safe_without_findings(linked: &Linked)
    requires well { IsWellLinked linked.now }
    requires covered { IsCovered linked.now }
    ensures { IsSafeWithoutFindings linked.now }
{}

/// So it is in the linked program of an input and a prelude, where both are as they are read and the prelude declares the nine classes.
pub fn links_are_track_sound()
    ensures { LinksAreTrackSound }
{}
