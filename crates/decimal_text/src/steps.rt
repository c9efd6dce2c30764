//! The digits after the point of a decimal, read one by one.

ghost use Rattle.std.specs.Prelude.{◌≡◌, ℕ, ◌+◌, ◌*◌, ◌-◌, ◌^◌, ◌<◌, ◌≤◌, true, false, length, MatchOption};
ghost use Rattle.std.specs.List.{list_all};
ghost use Rattle.std.specs.Char.{is_ascii_digit};
ghost use Rattle.std.specs.Str.Parse.{digits_value};

/// Returns 10^`exponent`; `exponent` is from 0 to 9. The powers up to 10^7 are in a table, which is
/// faster than a loop of multiplications.
pub fn power_of_ten(exponent: u32) -> u64
    requires { exponent ≤ 9 }
    ensures { result ≡ 10 ^ exponent }
{
    match exponent {
        0 => 1,
        1 => 10,
        2 => 100,
        3 => 1_000,
        4 => 10_000,
        5 => 100_000,
        6 => 1_000_000,
        7 => 10_000_000,
        _ => 10u64.pow(exponent),
    }
}

/// The state of reading the digits after the point of a decimal: the first `places` of them, from 0
/// to 9, make a whole number, and any digits after these must be 0.
#[derive(Clone, Copy)]
pub struct Steps {
    /// The number that the digits read so far write; digits after the first `places` are left
    /// out.
    pub value: u64,
    /// How many of the first `places` digits are still to be read.
    pub remaining: u32,
    /// True if each digit read after the first `places` is 0.
    pub exact: bool,
}

impl Steps {
    ghost use Rattle.decimal_text.specs.Workings.Steps.{DigitsInvariant};

    /// Returns the state after one more digit, from 0 to 9. If it is one of the first `places`
    /// digits, it is appended to `value`. Of a digit after these, only whether it is 0 is kept, in
    /// `exact`.
    fn after(self, digit: u8) -> Steps
        requires one { digit ≤ 9 }
        requires room { (self.value + 1) * 10 ^ self.remaining ≤ 10 ^ 9 }
        ensures { (places count n : ℕ) → DigitsInvariant places count n self → DigitsInvariant places (count + 1) (n * 10 + digit) result }
    {
        if self.remaining == 0 {
            return Steps {
                exact: self.exact && digit == 0,
                ..self
            };
        }
        Steps {
            value: self.value * 10 + u64::from(digit),
            remaining: self.remaining - 1,
            ..self
        }
    }

    /// Returns the number of steps of `1 / 10^places` if no more digits follow, below 10^9: each of
    /// the first `places` digits that is missing counts as 0. The condition holds of each state
    /// that [`Steps::over`] returns, as `places` is at most 9.
    pub fn total(self) -> u64
        requires { (self.value + 1) * 10 ^ self.remaining ≤ 10 ^ 9 }
        ensures value { result ≡ self.value * 10 ^ self.remaining }
        ensures small { result < 10 ^ 9 }
    {
        self.value * power_of_ten(self.remaining)
    }

    /// Returns the state after all digits in `fraction`, of which the first `places`, from 0 to 9,
    /// make the number. Returns `None` if a byte of `fraction` isn't a digit.
    pub fn over(fraction: &[u8], places: u32) -> Option<Steps>
        requires { places ≤ 9 }
        ensures { MatchOption result
            (list_all is_ascii_digit fraction.now ≡ false)
            (λ s. (list_all is_ascii_digit fraction.now ≡ true)
            × DigitsInvariant places (length fraction.now) (digits_value 10 fraction.now) s) }
    {
        let mut steps = Steps {
            value: 0,
            remaining: places,
            exact: true,
        };
        for byte in fraction {
            if !byte.is_ascii_digit() {
                return None;
            }
            steps = steps.after(byte - b'0');
        }
        Some(steps)
    }
}
