//! Why a text is no certificate.
use lists::NoMemory;
use std::alloc::AllocFailed;

/// Why no certificate was read.
#[derive(Clone, Copy, Debug, PartialEq, Eq)]
pub enum CertError {
    /// The first line, from 0, that isn't one of a certificate; 0 where there is no line.
    NotCertificate { at: u32 },
    /// Memory that was asked for wasn't found.
    NoMemory,
}

impl From<NoMemory> for CertError {
    ghost use Rattle.std.specs.Prelude.{◌≡◌};
    ghost use Rattle.cert_text.specs.declared.error.CertError.TheVariants.{NoMemory};

    ghost from_gives = { λ _ e. e ≡ NoMemory };

    fn from(_: NoMemory) -> Self {
        CertError::NoMemory
    }
}

impl<T: Drop> From<AllocFailed<T>> for CertError {
    ghost use Rattle.std.specs.Prelude.{◌≡◌};
    ghost use Rattle.cert_text.specs.declared.error.CertError.TheVariants.{NoMemory};

    ghost from_gives = { λ _ e. e ≡ NoMemory };

    fn from(_: AllocFailed<T>) -> Self {
        CertError::NoMemory
    }
}
