ghost use Rattle.link_laws.specs.Well.{LinksAreWell};

/// The linked program of an input and a prelude is well linked, where both are as they are read and the prelude declares the nine classes.
pub fn links_are_well()
    ensures { LinksAreWell }
{}
