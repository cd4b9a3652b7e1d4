//! The law.
ghost use Rattle.track_systems.specs.Laws.{AnyValuesLead, ValuesLead};

/// The values of a site's system, as those of a weighted pushdown system over relations, lead state 0 exactly to those states in which objects of the
/// site may be: that of a node and a call string to those there under it, that of a node alone to those there under some call string.
pub fn values_lead()
    ensures under { ValuesLead }
    ensures any { AnyValuesLead }
{}
