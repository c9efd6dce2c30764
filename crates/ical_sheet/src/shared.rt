//! The parts that all events of a calendar have in common.

ghost use Rattle.std.specs.Prelude.{◌≡◌, IfOk, string_bytes};
ghost use Rattle.hex.specs.Hex.{encode_lower};
ghost use Rattle.ical_sheet.specs.Calendars.{nearest_moment, stamp_of};
ghost use Rattle.ical_sheet.specs.Escaping.{escaped as escaped_text};

use crate::escaping::push_escaped;
use crate::stamp::{nearest_moment, stamp};
use hex::encode;
use report_sheets::Head;
use std::alloc::{AllocError, Global};

/// The parts that all events of a calendar have in common.
#[derive(Drop)]
pub(crate) struct Shared<'a> {
    pub head: &'a Head,
    /// The station's name in hexadecimal digits, for identifiers.
    pub digits: String,
    /// The station's name, escaped, for summaries.
    pub escaped: String,
    /// The moment at which the calendar was made, such as `20000110T060000Z`.
    pub made: [u8; 16],
    ghost digits_are: { string_bytes digits ≡ encode_lower head.now.name },
    ghost escaped_is: { string_bytes escaped ≡ escaped_text head.now.name },
    ghost made_is: { made ≡ stamp_of (nearest_moment head.now.now) },
}

impl<'a> Shared<'a> {
    /// Returns what all entries of a calendar with this `head` have in common: the station's name in
    /// hexadecimal digits and with escapes, and the time at which the calendar was made.
    ///
    /// # Errors
    /// [`AllocError`] if memory runs out.
    pub fn new(alloc: Global, head: &'a Head) -> Result<Shared<'a>, AllocError>
        ensures { IfOk result (λ shared. shared.head.now ≡ head.entry.now) }
    {
        let name = head.name.as_str();
        let mut escaped = String::new(alloc);
        push_escaped(&mut escaped, name)?;
        Ok(Shared {
            head,
            digits: encode(alloc, name)?,
            escaped,
            made: stamp(nearest_moment(head.now)),
        })
    }
}
