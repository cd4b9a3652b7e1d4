//! Why a text is no batch.
use lists::NoMemory;
use std::alloc::AllocFailed;

/// Why no queries were read.
#[derive(Clone, Copy, Debug, PartialEq, Eq)]
pub enum BatchError {
    /// The first line, from 0, that is no query, or is the 1,001st.
    NotBatch { at: u32 },
    /// Memory that was asked for wasn't found.
    NoMemory,
}

impl From<NoMemory> for BatchError {
    ghost use Rattle.std.specs.Prelude.{◌≡◌};
    ghost use Rattle.batch_lines.specs.declared.error.BatchError.TheVariants.{NoMemory};

    ghost from_gives = { λ _ e. e ≡ NoMemory };

    fn from(_: NoMemory) -> Self {
        BatchError::NoMemory
    }
}

impl<T: Drop> From<AllocFailed<T>> for BatchError {
    ghost use Rattle.std.specs.Prelude.{◌≡◌};
    ghost use Rattle.batch_lines.specs.declared.error.BatchError.TheVariants.{NoMemory};

    ghost from_gives = { λ _ e. e ≡ NoMemory };

    fn from(_: AllocFailed<T>) -> Self {
        BatchError::NoMemory
    }
}
