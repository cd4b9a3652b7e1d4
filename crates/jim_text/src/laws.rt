//! What holds of all bytes.
ghost use Rattle.jim_text.specs.Laws.{HasOneList, HasOneStop, StopsOrLexes, SpellsAlone, SpellsWithin};

/// A law: bytes have at most one list of tokens, at most one place that an error can name, and not both.
pub fn has_one_list()
    ensures list { HasOneList }
    ensures stop { HasOneStop }
    ensures either { StopsOrLexes }
{}

/// A law: a token's spelling looks at the token's own bytes alone. The mark `/` alone looks at the next byte too,
/// since no comment may begin there.
pub fn spells_alone()
    ensures alone { SpellsAlone }
    ensures within { SpellsWithin }
{}
