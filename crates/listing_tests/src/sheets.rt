//! Sheets that only the tests use.

ghost use Rattle.std.specs.Prelude.{◌++◌, codes, decimal, length};
ghost use Rattle.report_sheets.specs.Sheets.{IsLimit};

use curve_law::Event;
use decimal_text::{Bytes, Text};
use itoa::Buffer;
use report_sheets::{Collected, Head, Sheet, Taken};
use std::alloc::{AllocError, Global};

/// A sheet (page of a report) for tests: its text is its word and the number of events that it has
/// accepted.
#[derive(Drop)]
pub struct Counter {
    word: Text,
    collected: Collected,
}

impl Counter {
    pub fn new(alloc: Global, word: &str, limit: u32) -> Result<Counter, AllocError>
        requires { IsLimit limit }
    {
        Ok(Counter {
            word: Text::from_str(alloc, word)?,
            collected: Collected::new(alloc, limit),
        })
    }
}

impl Sheet for Counter {
    ghost sheet_spec = { λ sheet. record {
      word = sheet.word;
      limit = sheet.collected.limit;
      layout = λ _ list. sheet.word ++ codes " " ++ decimal (length list) ++ codes "\n";
    } };

    ghost heading = { λ sheet. sheet.collected.head };

    ghost list = { λ sheet. sheet.collected.events.items };

    ghost limited = { λ sheet. sheet.collected.limited };

    fn named(&self, word: &Text) -> bool {
        word.as_str() == self.word.as_str()
    }

    fn open(&mut self, head: &Head) -> Result<(), AllocError> {
        self.collected.open(head)
    }

    fn take(&mut self, event: &Event) -> Result<Taken, AllocError> {
        self.collected.take(event)
    }

    fn text(&self) -> Result<Bytes, AllocError> {
        let alloc = *self.collected.events.allocator();
        let mut text = Vec::from_slice(alloc, self.word.as_str().as_bytes())?;
        text.extend_from_slice(b" ")?;
        text.extend_from_slice(Buffer::new().format(self.collected.events.len()).as_bytes())?;
        text.extend_from_slice(b"\n")?;
        Ok(Bytes::from_vec(text))
    }
}

/// A call of a [`Refusing`] sheet: the call that runs out of memory.
#[derive(Clone, Copy, PartialEq)]
pub enum Refusal {
    Open,
    Take,
    Text,
}

/// A sheet (page of a report) for tests: one kind of its calls, or none, runs out of memory.
#[derive(Drop)]
pub struct Refusing {
    at: Option<Refusal>,
    collected: Collected,
}

impl Refusing {
    pub fn new(alloc: Global, at: Option<Refusal>) -> Refusing {
        Refusing {
            at,
            collected: Collected::new(alloc, 4),
        }
    }
}

impl Sheet for Refusing {
    ghost sheet_spec = { λ sheet. record { word = codes "refusing"; limit = sheet.collected.limit; layout = λ _ _. codes "kept" } };

    ghost heading = { λ sheet. sheet.collected.head };

    ghost list = { λ sheet. sheet.collected.events.items };

    ghost limited = { λ sheet. sheet.collected.limited };

    fn named(&self, word: &Text) -> bool {
        word.as_str() == "refusing"
    }

    fn open(&mut self, head: &Head) -> Result<(), AllocError> {
        if self.at == Some(Refusal::Open) {
            self.collected.events.clear();
            return Err(AllocError);
        }
        self.collected.open(head)
    }

    fn take(&mut self, event: &Event) -> Result<Taken, AllocError> {
        if self.at == Some(Refusal::Take) {
            return Err(AllocError);
        }
        self.collected.take(event)
    }

    fn text(&self) -> Result<Bytes, AllocError> {
        if self.at == Some(Refusal::Text) {
            return Err(AllocError);
        }
        let alloc = *self.collected.events.allocator();
        Ok(Bytes::from_vec(Vec::from_slice(alloc, b"kept")?))
    }
}
