//! Why a certificate isn't accepted.
use lists::NoMemory;
use std::alloc::AllocFailed;

/// Why no claim was accepted.
#[derive(Clone, Copy, Debug, PartialEq, Eq)]
pub enum ReplayError {
    /// The first line, from 1, that gives nothing over the lines before it; where each gives something and the last is no claim, the number behind it.
    Rejected { line: u32 },
    /// Memory that was asked for wasn't found.
    NoMemory,
}

impl From<NoMemory> for ReplayError {
    ghost use Rattle.std.specs.Prelude.{◌≡◌};
    ghost use Rattle.cert_replay.specs.declared.error.ReplayError.TheVariants.{NoMemory};

    ghost from_gives = { λ _ e. e ≡ NoMemory };

    fn from(_: NoMemory) -> Self {
        ReplayError::NoMemory
    }
}

impl<T: Drop> From<AllocFailed<T>> for ReplayError {
    ghost use Rattle.std.specs.Prelude.{◌≡◌};
    ghost use Rattle.cert_replay.specs.declared.error.ReplayError.TheVariants.{NoMemory};

    ghost from_gives = { λ _ e. e ≡ NoMemory };

    fn from(_: AllocFailed<T>) -> Self {
        ReplayError::NoMemory
    }
}
