//! The errors of reading a certificate of a highest water.

ghost use Rattle.std.specs.Prelude.{◌≡◌};

use thiserror::Error;

/// The reason why bytes couldn't be read as a certificate of a highest water.
#[derive(Clone, Copy, Debug, PartialEq, Eq, Error)]
pub enum PeakFault {
    /// Memory ran out while the certificate was read.
    #[error("no memory for the certificate")]
    NoMemory,
    /// The bytes aren't the text of a certificate of a highest water. `line`, counted from 1, is
    /// the first line such that no such certificate begins with the lines up to and including it;
    /// it is one past the last line if the bytes end too early.
    #[error("line {line} is of no certificate")]
    NotACertificate { line: u32 },
}

impl From<cert_text::CertFault> for PeakFault {
    ghost use Rattle.peak_text.specs.PeakReadings.{fault_of};

    ghost from_gives = { λ fault own. own ≡ fault_of fault };

    fn from(fault: cert_text::CertFault) -> PeakFault {
        match fault {
            cert_text::CertFault::NoMemory => PeakFault::NoMemory,
            cert_text::CertFault::NotACertificate { line } => PeakFault::NotACertificate { line },
        }
    }
}
