//! The laws.
ghost use Rattle.std.specs.Prelude.{◌↔◌};
ghost use Rattle.link_rules.specs.WellLinked.{IsWellLinked};
ghost use Rattle.link_sites.specs.declared.site.Site.{Site as AnySite};
ghost use Rattle.spds_rules.specs.declared.node.Node.{Node as AnyNode};
ghost use Rattle.spds_rules.specs.Answers.{IsAnswered};
ghost use Rattle.spds_rules.specs.Demand.{about};
ghost use Rattle.cert_laws.specs.Shown.{IsShown};

use link_program::Linked;

/// A site is in the answer of a query exactly where some list of lines is certified for it, in a program that is well linked: each method with
/// statements is reached. The numbers of lines have no upper bound here.
pub fn certified(linked: &Linked)
    requires { IsWellLinked linked.now }
    ensures { (target : AnyNode) (o : AnySite) → IsAnswered linked.now (about target) target o ↔ IsShown linked.now target o }
{}
