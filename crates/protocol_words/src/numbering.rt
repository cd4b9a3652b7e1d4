//! The names of a protocol by their numbers.
ghost use Rattle.std.specs.Prelude.{◌+◌, ◌^◌, ◌<◌, IfErr, IfOk, vec_len};
ghost use Rattle.protocol_words.specs.Numberings.{IsCrowded, IsNumbering};
ghost use Rattle.protocol_words.specs.Spellings.{named_protocol};

use super::error::ProtocolError;
use super::spelling::Spelling;
use jim_ast::Names;
use std::alloc::Global;
use track_rules::ProtocolRow;

/// The most states of a protocol.
const MOST_STATES: u32 = 16;

/// The states and the events of a protocol, numbered in the order of their first appearance, and its rows by these numbers.
#[derive(Drop)]
pub(crate) struct Numbered {
    pub(crate) states: Names,
    pub(crate) events: Names,
    pub(crate) rows: Vec<ProtocolRow>,
}

/// Numbers the states and the events. The error names the first part that brings a 17th state.
pub(crate) fn number_names(
    alloc: Global,
    spelling: &Spelling<'_>,
) -> Result<Numbered, ProtocolError>
    requires { vec_len spelling.now.rows + 1 < 2 ^ 32 }
    ensures ok { IfOk result (IsNumbering (named_protocol spelling.now)) }
    ensures err { IfErr result (IsCrowded (named_protocol spelling.now)) }
{
    let mut states = Names::new(alloc);
    let mut events = Names::new(alloc);
    let mut rows = Vec::new(alloc);
    states.add(spelling.first)?;
    for (index, row) in spelling.rows.iter().enumerate() {
        let from = states.add(row.from)?;
        let event = events.add(row.event)?;
        let to = states.add(row.to)?;
        if states.len() > MOST_STATES {
            return Err(ProtocolError::TooManyStates {
                at: index as u32 + 1,
            });
        }
        rows.push(ProtocolRow {
            from: from.0 as u8,
            event: event.0,
            to: to.0 as u8,
        })?;
    }
    Ok(Numbered {
        states,
        events,
        rows,
    })
}
