//! Whole numbers beside a phase.

ghost use Rattle.std.specs.Prelude.{◌≡◌, ◌≤◌, ◌^◌, unsigned_abs};

use std::marker::Model;

/// A whole number of at most 2^64 in size, by which a phase is multiplied or divided. Contracts see it as that number.
#[derive(Clone, Copy)]
pub struct Whole {
    number: i128,
}

impl Model for Whole {
    ghost use Rattle.std.specs.Prelude.{ℤ, unsigned_abs, ◌≤◌, ◌^◌};

    ghost Value = { ℤ };

    ghost view = { λ whole. whole.number };

    ghost invariant = { λ whole. unsigned_abs whole.number ≤ 2 ^ 64 };

    ghost inverse = { λ number. record { number = number } };
}

impl Whole {
    /// The whole number; it asks for one of at most 2^64 in size.
    pub fn new(number: i128) -> Whole
        requires { unsigned_abs number ≤ 2 ^ 64 }
        ensures { result ≡ number }
    {
        Whole { number }
    }

    /// The number.
    pub fn number(self) -> i128
        ensures value { result ≡ self }
        ensures size { unsigned_abs result ≤ 2 ^ 64 }
    {
        self.number
    }
}
