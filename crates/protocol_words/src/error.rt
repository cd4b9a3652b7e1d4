//! Why a word is no protocol.
use lists::NoMemory;
use std::alloc::AllocFailed;

/// Why there is no protocol. Parts are numbered from 0.
#[derive(Clone, Copy, Debug, PartialEq, Eq)]
pub enum ProtocolError {
    /// The first part of another form, or with the first state and the event of an earlier part.
    NotProtocol { at: u32 },
    /// The first part that brings a 17th state.
    TooManyStates { at: u32 },
    /// No class has the name of the protocol's class.
    UnknownClass,
    /// Memory that was asked for wasn't found.
    NoMemory,
}

impl From<NoMemory> for ProtocolError {
    ghost use Rattle.std.specs.Prelude.{◌≡◌};
    ghost use Rattle.protocol_words.specs.declared.error.ProtocolError.TheVariants.{NoMemory};

    ghost from_gives = { λ _ e. e ≡ NoMemory };

    fn from(_: NoMemory) -> Self {
        ProtocolError::NoMemory
    }
}

impl<T: Drop> From<AllocFailed<T>> for ProtocolError {
    ghost use Rattle.std.specs.Prelude.{◌≡◌};
    ghost use Rattle.protocol_words.specs.declared.error.ProtocolError.TheVariants.{NoMemory};

    ghost from_gives = { λ _ e. e ≡ NoMemory };

    fn from(_: AllocFailed<T>) -> Self {
        ProtocolError::NoMemory
    }
}
