//! A counter that stores its value as text, for fast printing.

ghost use Rattle.std.specs.Prelude.{◌≡◌, ◌+◌, ◌<◌, ◌^◌, OnOk, OnErr, decimal};
ghost use Rattle.support.specs.Pushed.{Pushes};

use itoa::Buffer;
use std::alloc::{AllocError, Global};
use std::marker::Model;

/// A counter from 0 to `u64::MAX` that increases by one at a time.
///
/// All digits of the value except the last are stored as text. This text changes only at each tenth
/// increment.
#[derive(Drop)]
pub struct Counter {
    prefix: String,
    tens: u64,
    last_digit: u8,
}

impl Model for Counter {
    ghost use Rattle.std.specs.Prelude.{◌≡◌, ℕ, ◌+◌, ◌*◌, ◌<◌, ◌^◌, string_bytes};
    ghost use Rattle.support.specs.Tens.{tens_text};

    ghost Value = { ℕ };

    ghost view = { λ c. c.tens * 10 + c.last_digit };

    ghost invariant = { λ c. (string_bytes c.prefix ≡ tens_text c.tens) × (c.last_digit < 10) × (c.tens * 10 + c.last_digit < 2 ^ 64) };
}

impl Counter {
    /// Creates a counter at 0.
    pub fn new(alloc: Global) -> Counter
        ensures { result ≡ 0 }
    {
        Counter {
            prefix: String::new(alloc),
            tens: 0,
            last_digit: 0,
        }
    }

    /// Increments the counter, which must be below `u64::MAX`.
    ///
    /// # Errors
    ///
    /// Returns [`AllocError`] if memory runs out. The counter is then unchanged.
    #[inline(always)]
    #[tactic(auto, using(crate::proofs::Counting::tens_text_above))]
    pub fn count(&mut self) -> Result<(), AllocError>
        requires { self.old + 1 < 2 ^ 64 }
        ensures counted { OnOk result (self.new ≡ self.old + 1) }
        ensures unchanged { OnErr result (self.new ≡ self.old) }
    {
        if self.last_digit < 9 {
            self.last_digit += 1;
            return Ok(());
        }
        let tens = self.tens + 1;
        let mut digits = Buffer::new();
        self.prefix.replace_range(.., digits.format(tens))?;
        self.tens = tens;
        self.last_digit = 0;
        Ok(())
    }

    /// Returns the value of the counter.
    pub fn get(&self) -> u64
        ensures { result ≡ self.now }
    {
        self.tens * 10 + u64::from(self.last_digit)
    }

    /// Appends the value in decimal digits.
    ///
    /// # Errors
    ///
    /// Returns [`AllocError`] if memory runs out. All digits except the last may then have been
    /// appended.
    #[inline(always)]
    #[tactic(auto, using(crate::proofs::Counting::tens_text_digit))]
    pub fn push_to(&self, text: &mut String) -> Result<(), AllocError>
        ensures { Pushes result text.old text.new (decimal self.now) }
    {
        text.push_str(&self.prefix)?;
        text.push((b'0' + self.last_digit) as char)
    }
}
