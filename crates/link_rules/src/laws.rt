ghost use Rattle.link_rules.specs.Laws.{HasOneFirst, HasOneOrder, HasOneWorld, IsNotBoth};

/// What is linked is determined by the input, the prelude and the name of the class to begin with; so are the order of a call's targets and
/// the refusal that comes first; and nothing is both linked and refused.
pub fn linking_is_determined()
    ensures world { HasOneWorld }
    ensures targets { HasOneOrder }
    ensures first { HasOneFirst }
    ensures one_answer { IsNotBoth }
{}
