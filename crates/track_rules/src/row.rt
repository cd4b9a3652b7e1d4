//! What an event does.

/// A row of a protocol: in the state `from` the event leads to the state `to`. States and events go by their numbers, from 0.
#[derive(Clone, Copy, Debug, PartialEq, Eq, Hash)]
pub struct ProtocolRow {
    pub from: u8,
    pub event: u32,
    pub to: u8,
}
