//! The inputs of an answer other than the request, the harmonic constants and the offsets.

use decimal_text::Bytes;
use zone_time::Zone;

/// The zone, the certificate and the present minute that an answer may depend on, besides the request,
/// the harmonic constants and the offsets; zone and certificate are borrowed.
#[derive(Clone, Copy)]
pub struct GivenView<'a> {
    /// The zone in which the answer shows local times.
    pub zone: &'a Zone,
    /// The text of the certificate to be checked, at most 400,000,000 bytes; unused by other commands.
    pub certificate: &'a [u8],
    /// The present minute, since 1970-01-01T00:00Z, from -10,000,000,000 to 10,000,000,000.
    pub now: i64,
}

/// The zone, the certificate and the present minute that an answer may depend on, besides the request,
/// the harmonic constants and the offsets.
#[derive(Drop)]
pub struct Given {
    /// The zone in which the answer shows local times.
    pub zone: Zone,
    /// The text of the certificate to be checked, at most 400,000,000 bytes; unused by other commands.
    pub certificate: Bytes,
    /// The present minute, since 1970-01-01T00:00Z, from -10,000,000,000 to 10,000,000,000.
    pub now: i64,
}

impl Given {
    ghost use Rattle.std.specs.Prelude.{◌≡◌};
    ghost use Rattle.tide_answer.specs.Givens.{given_seen};

    /// Returns the same inputs, with the zone and the certificate borrowed.
    pub fn view(&self) -> GivenView<'_>
        ensures { given_seen result ≡ self.entry.now }
    {
        GivenView {
            zone: &self.zone,
            certificate: self.certificate.as_slice(),
            now: self.now,
        }
    }
}
