//! A word as a protocol.
ghost use Rattle.std.specs.Prelude.{IfErr, IfOk};
ghost use Rattle.track_rules.specs.Protocols.{IsProtocolOf};
ghost use Rattle.protocol_words.specs.Refused.{IsRefusedFor};

use super::error::ProtocolError;
use super::numbering::number_names;
use super::protocol::Protocol;
use super::spelling::read_spelling;
use link_program::Linked;
use std::alloc::Global;

/// The protocol that a word of a command line spells: `CLASS STATE` and then, for each row, `;STATE EVENT STATE`, with one blank between names. A name is
/// one or more characters other than the blank and the semicolon. No two rows may have one first state and one event, and there are at most 16 states. The
/// first part that breaks the grammar is told before the first that brings a 17th state, and that before a class that the program doesn't declare.
///
/// There is room for 4,294,967,295 parts.
pub fn read_protocol(alloc: Global, linked: &Linked, word: &str) -> Result<Protocol, ProtocolError>
    ensures ok { IfOk result (IsProtocolOf linked.now word.now) }
    ensures err { IfErr result (IsRefusedFor linked.now word.now) }
{
    let spelling = read_spelling(alloc, word)?;
    let numbered = number_names(alloc, &spelling)?;
    let Some(class) = linked.class_number(spelling.class) else {
        return Err(ProtocolError::UnknownClass);
    };
    Ok(Protocol::of(class, numbered))
}
