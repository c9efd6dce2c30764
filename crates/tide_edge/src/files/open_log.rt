//! All calls of `open` on files, with the bytes read after each.

ghost use Rattle.std.specs.Prelude.{◌≡◌, ◌≤◌, length};

use crate::files::opening::OneOpening;
use decimal_text::Text;
use ghost_log::Log;
use std::marker::Model;
use std::slice;

/// All calls of `open` on files, with the bytes read after each: the latest call, and the earlier
/// ones. The names, bytes and lists exist in proofs only: none is kept at run time.
#[derive(Drop)]
pub(crate) struct Openings {
    earlier: Log<OneOpening>,
    latest: Option<OneOpening>,
}

impl Model for Openings {
    ghost use Rattle.tide_edge.specs.FileStates as spec;

    ghost Value = { spec.Openings };

    ghost view = { λ o. record { earlier = o.earlier.items; latest = o.latest } };
}

impl Openings {
    ghost use Rattle.tide_edge.specs.FileStates.{
      no_openings,
      openings_after_failure,
      openings_after_open,
      openings_after_read,
    };

    /// Returns the record in which `open` hasn't been called.
    pub(crate) fn none() -> Openings
        ensures { result ≡ no_openings }
    {
        Openings {
            earlier: Log::new(),
            latest: None,
        }
    }

    /// Records a call of `open` for the file `name`; `is_open` is true if the call succeeded.
    pub(crate) fn open(&mut self, name: &Text, is_open: bool)
        ensures { self.new ≡ openings_after_open is_open name.now self.old }
    {
        if let Some(latest) = &self.latest {
            self.earlier = self.earlier.then(slice::from_ref(latest));
        }
        self.latest = Some(OneOpening::new(name, is_open));
    }

    /// Records a call of `read` that put `count` bytes of the file opened last into the first bytes
    /// of `buffer`; a count of 0 is the end of the file.
    pub(crate) fn read(&mut self, buffer: &[u8], count: usize)
        requires { count ≤ length buffer.now }
        ensures { self.new ≡ openings_after_read count buffer.now self.old }
    {
        if let Some(latest) = &mut self.latest {
            latest.read(buffer, count);
        }
    }

    /// Records a call of `read` that failed, for the latest call of `open`.
    pub(crate) fn fail(&mut self)
        ensures { self.new ≡ openings_after_failure self.old }
    {
        if let Some(latest) = &mut self.latest {
            latest.fail();
        }
    }
}
