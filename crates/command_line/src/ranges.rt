//! What the row of a command requires of the numbers of its options: a range, that one is given, and a default where one may be left
//! out. For other values, `?` and `unwrap_or` do the last two.
ghost use Rattle.std.specs.Prelude.{◌≡◌, ℕ, ◌*◌, ◌≤◌};
ghost use Rattle.command_line.specs.Ranges.{required_within, within, within_or};

use std::marker::Model;

/// A number from `LEAST` to `GREATEST`, both included. A command with such a number knows its range wherever it uses it.
#[derive(Clone, Copy, Debug, PartialEq, Eq)]
pub struct Within<const LEAST: u64, const GREATEST: u64> {
    number: u64,
}

// Contracts see it as its number.
impl<const LEAST: u64, const GREATEST: u64> Model for Within<LEAST, GREATEST> {
    ghost Value = { ℕ };

    ghost view = { λ w. w.number };

    ghost invariant = { λ w. (LEAST ≤ w.number) × (w.number ≤ GREATEST) };

    ghost inverse = { λ n. record { number = n } };
}

impl<const LEAST: u64, const GREATEST: u64> Within<LEAST, GREATEST> {
    /// Returns the number, or `None` where it is not in the range.
    pub fn new(number: u64) -> Option<Self>
        ensures { result ≡ within LEAST GREATEST number }
    {
        if LEAST <= number && number <= GREATEST {
            Some(Within { number })
        } else {
            None
        }
    }

    /// Returns the product of two numbers, or `None` where it is not in the range.
    pub fn product(one: u64, other: u64) -> Option<Self>
        ensures { result ≡ within LEAST GREATEST (one * other) }
    {
        Self::new(one.checked_mul(other)?)
    }

    /// Returns the number of a required option, or `None` where it is left out or not in the range.
    pub fn required(given: Option<u64>) -> Option<Self>
        ensures { result ≡ required_within LEAST GREATEST given }
    {
        Self::new(given?)
    }

    /// Returns the number of an option, or its default where it is left out. `None` where the number is not in the range.
    pub fn given_or(default: u64, given: Option<u64>) -> Option<Self>
        ensures { result ≡ within_or LEAST GREATEST default given }
    {
        Self::new(given.unwrap_or(default))
    }

    /// Returns the number.
    pub fn get(self) -> u64
        ensures value { result ≡ self.entry }
        ensures least { LEAST ≤ result }
        ensures greatest { result ≤ GREATEST }
    {
        self.number
    }
}
