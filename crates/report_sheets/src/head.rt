//! The head of a report.

ghost use Rattle.std.specs.Prelude.{◌≡◌, ◌++◌, IfOk, codes};

use decimal_text::Text;
use harmonics_book::Units;
use std::alloc::{AllocError, Global};

/// What all pages of a report have in common: the station's name, the unit of its levels, and the
/// minute at which the report is made.
#[derive(Drop)]
pub struct Head {
    /// The name of the station that the report is about.
    pub name: Text,
    /// The unit of the events' levels.
    pub units: Units,
    /// The minute at which the report is made, since 1970-01-01T00:00Z.
    pub now: i64,
}

impl Head {
    /// Returns a copy of this head of a report.
    ///
    /// # Errors
    /// [`AllocError`] if memory runs out.
    pub fn copy(&self) -> Result<Head, AllocError>
        ensures { IfOk result (λ head. head ≡ self.entry.now) }
    {
        Ok(Head {
            name: self.name.copy()?,
            units: self.units,
            now: self.now,
        })
    }

    /// Returns the first line of a report's page: the station's name, with LF.
    ///
    /// # Errors
    /// [`AllocError`] if memory runs out.
    pub fn name_line(&self, alloc: Global) -> Result<Vec<u8>, AllocError>
        ensures { IfOk result (λ text. text.items ≡ self.entry.now.name ++ codes "\n") }
    {
        let mut text = Vec::from_slice(alloc, self.name.as_str().as_bytes())?;
        text.push(b'\n')?;
        Ok(text)
    }
}
