//! What holds of all words.
ghost use Rattle.protocol_words.specs.Laws.{EachWordHasAnOutcome, HasOneOutcome};

/// Each word is one protocol of a linked program, or is refused for one reason and, where a part is told, at one part.
pub fn words_are_determined()
    ensures one { HasOneOutcome }
    ensures some { EachWordHasAnOutcome }
{}
