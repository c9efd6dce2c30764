//! A writer of text with a generator of pseudorandom numbers.

ghost use Rattle.std.specs.Prelude.{◌≡◌, ◌<◌, ◌≤◌, [], IfOk, OnOk, pos, decimal};
ghost use Rattle.decimal_text.specs.Writing.{write_of};
ghost use Rattle.sample_tides.specs.Generator.{scaled_to};

use crate::generator::Generator;
use arrayvec::ArrayString;
use decimal_text::{Bytes, write};
use itoa::Buffer;
use std::alloc::{AllocError, Global};
use std::marker::Model;

/// The text written until now, and the generator of the numbers in the text that follows. In
/// contracts its value is a record of the text's bytes and the generator's state.
#[derive(Drop)]
pub(crate) struct SampleWriter {
    text: Vec<u8>,
    generator: Generator,
}

impl Model for SampleWriter {
    ghost use Rattle.sample_tides.specs.Parts.{SampleWriter};

    ghost Value = { SampleWriter };

    ghost view = { λ d. record { text = d.text.items; state = d.generator } };
}

impl SampleWriter {
    ghost use Rattle.sample_tides.specs.Parts.{append, line, moved};

    /// Returns a writer without text; the generator's state is `seed`.
    pub(crate) fn new(alloc: Global, seed: u64) -> SampleWriter
        ensures { result ≡ record { text = []; state = seed } }
    {
        SampleWriter {
            text: Vec::new(alloc),
            generator: Generator::new(seed),
        }
    }

    /// Advances the generator once, and returns a number from 0 to `bound - 1` by its new state.
    /// `bound` isn't 0.
    #[tactic(auto, unfolding(crate::specs::Parts::moved))]
    pub(crate) fn draw(&mut self, bound: u32) -> u32
        requires { 0 < bound }
        ensures value { result ≡ scaled_to bound self.new.state }
        ensures within { result < bound }
        ensures after { self.new ≡ moved self.old }
    {
        self.generator.draw(bound)
    }

    /// Appends the bytes in `text`.
    ///
    /// # Errors
    /// [`AllocError`]: if memory runs out.
    #[tactic(auto, unfolding(crate::specs::Parts::append))]
    pub(crate) fn append(&mut self, text: &[u8]) -> Result<(), AllocError>
        ensures { OnOk result (self.new ≡ append text.now self.old) }
    {
        self.text.extend_from_slice(text)
    }

    /// Appends `text` as a line, with an LF at its end.
    ///
    /// # Errors
    /// [`AllocError`]: if memory runs out.
    #[tactic(auto, using(crate::proofs::PartsLemmas::append_twice))]
    pub(crate) fn line(&mut self, text: &[u8]) -> Result<(), AllocError>
        ensures { OnOk result (self.new ≡ line text.now self.old) }
    {
        self.append(text)?;
        self.append(b"\n")
    }

    /// Appends `number` in digits.
    ///
    /// # Errors
    /// [`AllocError`]: if memory runs out.
    pub(crate) fn whole(&mut self, number: u64) -> Result<(), AllocError>
        ensures { OnOk result (self.new ≡ append (decimal number) self.old) }
    {
        self.append(Buffer::new().format(number).as_bytes())
    }

    /// Appends `value / 10^places` as a decimal with exactly `places` decimal places, at most 6.
    ///
    /// # Errors
    /// [`AllocError`]: if memory runs out.
    pub(crate) fn decimal(&mut self, value: u32, places: u32) -> Result<(), AllocError>
        requires { places ≤ 6 }
        ensures { OnOk result (self.new ≡ append (write_of (pos value) places) self.old) }
    {
        self.signed(i64::from(value), places)
    }

    /// Appends `value / 10^places`, which may be negative, as a decimal with exactly `places`
    /// decimal places, at most 6.
    ///
    /// # Errors
    /// [`AllocError`]: if memory runs out.
    pub(crate) fn signed(&mut self, value: i64, places: u32) -> Result<(), AllocError>
        requires { places ≤ 6 }
        ensures { OnOk result (self.new ≡ append (write_of value places) self.old) }
    {
        let mut text = ArrayString::new();
        write(value, places, &mut text);
        self.append(text.as_str().as_bytes())
    }

    /// Returns the text written until now, in bytes.
    pub(crate) fn into_bytes(self) -> Bytes
        ensures { result ≡ self.text }
    {
        Bytes::from_vec(self.text)
    }
}
