//! The law on words.
ghost use Rattle.boom_words.specs.Requests.{WordsAreOne};

/// The words of a command line are at most one request.
pub fn words_are_one()
    ensures { WordsAreOne }
{}
