//! Whole numbers in two halves, so that what holds one is aligned as its other parts are.

ghost use Rattle.std.specs.Prelude.{◌≡◌};

use std::marker::Model;

/// What a unit of the upper half is worth.
const UNIT: u128 = 0x1_0000_0000_0000_0000;

/// A whole number.
#[derive(Drop)]
pub struct WholeNumber {
    upper: u64,
    lower: u64,
}

impl Model for WholeNumber {
    ghost use Rattle.std.specs.Prelude.{ℤ, ◌+◌, ◌*◌, ◌^◌};
    ghost use Rattle.std.specs.Int.{cast_signed, w128};

    ghost Value = { ℤ };

    ghost view = { λ w. cast_signed w128 (w.upper * 2 ^ 64 + w.lower) };
}

impl WholeNumber {
    /// The number, to be kept.
    pub fn new(number: i128) -> WholeNumber
        ensures { result ≡ number }
    {
        let bits = number.cast_unsigned();
        WholeNumber {
            upper: (bits / UNIT) as u64,
            lower: (bits % UNIT) as u64,
        }
    }

    /// The number.
    pub fn get(&self) -> i128
        ensures { result ≡ self.now }
    {
        let bits = self.upper as u128 * UNIT + self.lower as u128;
        bits.cast_signed()
    }
}
