//! A sheet that only the tests use.

ghost use Rattle.std.specs.Prelude.{◌++◌, codes, decimal, length};
ghost use Rattle.std.specs.Fmt.{signed_decimal};
ghost use Rattle.report_sheets.specs.Sheets.{IsLimit};

use curve_law::Event;
use decimal_text::{Bytes, Text};
use report_sheets::{Collected, Head, Sheet, Taken};
use std::alloc::{AllocError, Global};

/// A sheet (page of a report) for tests: its text is the number of its events, the station's name and
/// the minute of the report.
#[derive(Drop)]
pub struct Stamp {
    collected: Collected,
}

impl Stamp {
    pub fn new(alloc: Global, limit: u32) -> Stamp
        requires { IsLimit limit }
    {
        Stamp {
            collected: Collected::new(alloc, limit),
        }
    }
}

impl Sheet for Stamp {
    ghost sheet_spec = { λ sheet. record {
      word = codes "stamp";
      limit = sheet.collected.limit;
      layout = λ head list. (decimal (length list) ++ codes " events of ") ++ head.name
          ++ (codes ", told at " ++ signed_decimal head.now ++ codes "\n");
    } };

    ghost heading = { λ sheet. sheet.collected.head };

    ghost list = { λ sheet. sheet.collected.events.items };

    ghost limited = { λ sheet. sheet.collected.limited };

    fn named(&self, word: &Text) -> bool {
        word.as_str() == "stamp"
    }

    fn open(&mut self, head: &Head) -> Result<(), AllocError> {
        self.collected.open(head)
    }

    fn take(&mut self, event: &Event) -> Result<Taken, AllocError> {
        self.collected.take(event)
    }

    fn text(&self) -> Result<Bytes, AllocError> {
        let alloc = *self.collected.events.allocator();
        let count = self.collected.events.len();
        let now = self.collected.head.now;
        let printed = format!(in alloc; ", told at {now}\n")?;
        let mut text = format!(in alloc; "{count} events of ")?;
        text.push_str(self.collected.head.name.as_str())?;
        text.push_str(printed.as_str())?;
        Ok(Bytes::from_vec(text.into_bytes()))
    }
}
