//! The errors of reading a certificate.

ghost use Rattle.std.specs.Prelude.{◌≡◌};

use std::alloc::AllocError;
use thiserror::Error;

/// The reason why bytes couldn't be read as a certificate.
#[derive(Clone, Copy, Debug, PartialEq, Eq, Error)]
pub enum CertFault {
    /// Memory ran out while the certificate was read.
    #[error("no memory for the certificate")]
    NoMemory,
    /// The bytes aren't the text of a certificate. `line`, counted from 1, is the first line such
    /// that no certificate begins with the lines up to and including it; it is one past the last
    /// line if the bytes end too early.
    #[error("line {line} is of no certificate")]
    NotACertificate { line: u32 },
}

impl From<AllocError> for CertFault {
    ghost use Rattle.cert_text.specs.declared.fault.CertFault.TheVariants.{NoMemory};

    ghost from_gives = { λ _ fault. fault ≡ NoMemory };

    fn from(_: AllocError) -> CertFault {
        CertFault::NoMemory
    }
}
