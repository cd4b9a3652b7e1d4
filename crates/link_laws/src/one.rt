ghost use Rattle.link_laws.specs.One.{HasOneLink, HasOneRefusal};

/// An input, a prelude and the name of the class to begin with have at most one linked program, and one refusal that is told.
pub fn links_are_one()
    ensures link { HasOneLink }
    ensures refusal { HasOneRefusal }
{}
