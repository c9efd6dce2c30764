//! An answer that is written while it is computed.

ghost use Rattle.std.specs.Prelude.{◌≡◌, false};
ghost use Rattle.tide_answer.specs.Streams.{Streams};
ghost use Rattle.tide_answer.specs.Workings.Streaming.{stream_of, IsStream};

use crate::certificate_sending::send_certificate;
use crate::form::Form;
use crate::listing_sending::send_listing;
use decimal_text::Text;
use station_span::{FoundStation, merge_of};
use std::marker::Model;
use tide_edge::{Sink, WriteFailed};
use zone_time::Zone;

/// An answer that is computed while it is written. It owns the curve of its station. In contracts its
/// value is the whole answer.
#[derive(Drop)]
pub struct Stream {
    form: Form,
    found_station: FoundStation,
    name: Text,
    zone: Zone,
}

impl Model for Stream {
    ghost use Rattle.tide_answer.specs.declared.text.Answer.{Answer};
    ghost use Rattle.tide_answer.specs.Workings.Streaming.{stream_of, IsStream};

    ghost Value = { Answer };

    ghost view = { λ s. stream_of s.form s.found_station s.name s.zone };

    ghost invariant = { λ s. IsStream s.found_station s.name s.zone };
}

impl Stream {
    /// Returns the answer, not yet written, for the station `found_station` called `name`: a listing of
    /// its events in the local time of `zone`, or their certificate, as `form` says.
    pub fn new(form: Form, found_station: FoundStation, name: Text, zone: Zone) -> Stream
        requires { IsStream found_station name zone }
        ensures { result ≡ stream_of form found_station name zone }
    {
        Stream {
            form,
            found_station,
            name,
            zone,
        }
    }

    /// Writes the text of the answer to `out`, and returns the number of its cells. The call doesn't
    /// allocate.
    ///
    /// # Errors
    /// [`WriteFailed`] if a write to `out` fails: then exactly the first `sent` bytes of the text were
    /// written.
    pub fn write<S: Sink>(&self, out: &mut S) -> Result<u64, WriteFailed>
        ensures streams { Streams (S.state out.old) (S.state out.new) self.now result }
        ensures judged { self.now.rejected ≡ false }
    {
        match self.form {
            Form::Listing => write_listing(out, &self.found_station, &self.name, &self.zone),
            Form::Certificate => write_certificate(
                out,
                &self.found_station,
                &self.name,
                &self.zone,
            ),
        }
    }
}

/// Writes a listing while it is computed.
fn write_listing<S: Sink>(
    out: &mut S,
    found_station: &FoundStation,
    name: &Text,
    zone: &Zone,
) -> Result<u64, WriteFailed>
    requires { IsStream found_station.now name.now zone.now }
    ensures { Streams (S.state out.old) (S.state out.new) (stream_of Form.Listing found_station.now name.now zone.now) result }
{
    let mut merge = merge_of(found_station);
    send_listing(out, name, found_station.units, &zone.clock(), &mut merge)?;
    Ok(merge.cells())
}

/// Writes a certificate while it is computed.
fn write_certificate<S: Sink>(
    out: &mut S,
    found_station: &FoundStation,
    name: &Text,
    zone: &Zone,
) -> Result<u64, WriteFailed>
    requires { IsStream found_station.now name.now zone.now }
    ensures { Streams (S.state out.old) (S.state out.new) (stream_of Form.Certificate found_station.now name.now zone.now) result }
{
    let sent = send_certificate(out, found_station, name)?;
    Ok(sent.cells)
}
