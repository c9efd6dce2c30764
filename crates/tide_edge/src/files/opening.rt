//! One opening of a file, with the bytes read after it.

ghost use Rattle.std.specs.Prelude.{◌≡◌, ◌≤◌, ◌==◌, length};

use decimal_text::Text;
use ghost_log::Log;
use std::marker::Model;

/// One call of `open`: the name, whether a file was opened, the bytes read of it, how many calls of
/// `read` found its end, and whether a call of `read` has failed.
#[derive(Drop)]
pub(crate) struct OneOpening {
    name: Log<u8>,
    is_open: bool,
    bytes: Log<u8>,
    ends: Log<()>,
    read_failed: bool,
}

impl Model for OneOpening {
    ghost use Rattle.std.specs.Prelude.{length};
    ghost use Rattle.tide_edge.specs.FileStates.{Opening};

    ghost Value = { Opening };

    ghost view = { λ o. record {
      name = o.name.items;
      is_open = o.is_open;
      bytes = o.bytes.items;
      ends = length o.ends.items;
      read_failed = o.read_failed;
    } };
}

impl OneOpening {
    ghost use Rattle.tide_edge.specs.FileStates.{just_opened, opening_after_failure, opening_after_read};

    /// Returns the record of a call of `open` for the file `name`, before any byte is read;
    /// `is_open` is true if the call succeeded.
    pub(crate) fn new(name: &Text, is_open: bool) -> OneOpening
        ensures { result ≡ just_opened is_open name.now }
    {
        OneOpening {
            name: Log::new().then(name.as_str().as_bytes()),
            is_open,
            bytes: Log::new(),
            ends: Log::new(),
            read_failed: false,
        }
    }

    /// Records a call of `read` that put `count` bytes into the first bytes of `buffer`; a count of
    /// 0 is the end of the file.
    pub(crate) fn read(&mut self, buffer: &[u8], count: usize)
        requires { count ≤ length buffer.now }
        ensures { self.new ≡ opening_after_read count buffer.now self.old }
    {
        self.bytes = self.bytes.then(&buffer[..count]);
        if count == 0 {
            self.ends = self.ends.then(&[()]);
        }
    }

    /// Records that a read failed.
    pub(crate) fn fail(&mut self)
        ensures { self.new ≡ opening_after_failure self.old }
    {
        self.read_failed = true;
    }
}
