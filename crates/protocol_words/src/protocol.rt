//! A protocol.
ghost use Rattle.std.specs.Prelude.{◌≡◌, ◌<◌, ℕ, IfNone, IfSome, Some, length, slice_get};
ghost use Rattle.lists.specs.Lists.{Has};
ghost use Rattle.track_rules.specs.Protocols.{HasRow, IsProtocol};
ghost use Rattle.protocol_words.specs.Numberings.{protocol_parts};

use super::numbering::Numbered;
use jim_ast::NameId;
use std::marker::Model;
use track_rules::ProtocolRow;

/// The states that the objects of a class go through, and to which state each event leads from each state in which it is allowed. States and events
/// are named, and go by their numbers from 0; objects begin in state 0. What is read of it takes no memory.
#[derive(Drop)]
pub struct Protocol {
    class: u32,
    numbered: Numbered,
}

impl Model for Protocol {
    ghost use Rattle.track_rules.specs.Protocols.{IsProtocol, ProtocolParts};

    ghost Value = { ProtocolParts };

    ghost use Rattle.protocol_words.specs.Numberings.{protocol_parts};

    ghost view = { λ p. protocol_parts p.class p.numbered };

    ghost invariant = { λ p. IsProtocol (protocol_parts p.class p.numbered) };
}

impl Protocol {
    // The protocol of a class with these states, events and rows.
    pub(crate) fn of(class: u32, numbered: Numbered) -> Self
        requires { IsProtocol (protocol_parts class numbered) }
        ensures { result ≡ protocol_parts class numbered }
    {
        Protocol { class, numbered }
    }

    /// Says of what form each protocol is: it has 1 to 16 states, no two states and no two events have one name, the numbers of its rows are in range,
    /// and no two rows have one first state and one event. A proof that needs the form calls it. It does nothing when it runs.
    pub fn tell_form(&self)
        ensures { IsProtocol self.now }
    {
        let _ = &self.class;
    }

    /// The number of its class.
    pub fn class(&self) -> u32
        ensures { result ≡ self.now.class }
    {
        self.class
    }

    /// How many states there are, from 1 to 16.
    pub fn states(&self) -> u8
        ensures { result ≡ length self.now.states }
    {
        self.numbered.states.len() as u8
    }

    /// How many events there are.
    pub fn events(&self) -> u32
        ensures { result ≡ length self.now.events }
    {
        self.numbered.events.len()
    }

    /// The name of a state.
    pub fn state_name(&self, state: u8) -> &str
        requires { state < length self.now.states }
        ensures { slice_get self.now.states state ≡ Some result.now }
    {
        self.numbered.states.text(NameId(u32::from(state)))
    }

    /// The name of an event.
    pub fn event_name(&self, event: u32) -> &str
        requires { event < length self.now.events }
        ensures { slice_get self.now.events event ≡ Some result.now }
    {
        self.numbered.events.text(NameId(event))
    }

    /// The number of the event with this name, by one hashed look-up.
    pub fn event(&self, name: &str) -> Option<u32>
        ensures some { IfSome result (λ event. slice_get self.now.events event ≡ Some name.now) }
        ensures none { IfNone result (Has self.now.events name.now → ⊥) }
    {
        let id = self.numbered.events.find(name)?;
        Some(id.0)
    }

    /// The rows, in the order in which they are written.
    pub fn rows(&self) -> &[ProtocolRow]
        ensures { result.now ≡ self.now.rows }
    {
        self.numbered.rows.as_slice()
    }

    /// The state to which the event leads from a state, where it is allowed there.
    pub fn next(&self, from: u8, event: u32) -> Option<u8>
        ensures some { IfSome result (HasRow self.now from event) }
        ensures none { IfNone result ((to : ℕ) → HasRow self.now from event to → ⊥) }
    {
        for row in self.rows() {
            if row.from == from && row.event == event {
                return Some(row.to);
            }
        }
        None
    }
}
