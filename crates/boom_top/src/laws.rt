//! The law on replies.
ghost use Rattle.boom_top.specs.Laws.{RepliesAreOne};

/// What is asked of a text has one reply: one status, and one text. Only the certificates that an `explain` command prints may be others, since a site may
/// have several.
pub fn replies_are_one()
    ensures { RepliesAreOne }
{}
