//! Decimal numbers.

ghost use Rattle.std.specs.Prelude.{◌≡◌, ◌/◌, ◌^◌, ◌↔◌, IsSome, IfSome, unsigned_abs};
ghost use Rattle.pit_units.specs.DecimalRange.{IsInDecimalRange};

use std::fmt;
use std::marker::Model;

/// The number of millionths in 1.
pub const MILLIONTHS: i128 = 1_000_000;

/// The largest number of millionths of a decimal, either side of zero: 10^18 as a number.
pub const MAX_MILLIONTHS: u128 = 1_000_000_000_000_000_000_000_000;

// The number of values of a half: 2^64.
const HALF: u128 = 18_446_744_073_709_551_616;

/// A decimal number, counted in millionths: from -10^24 to 10^24 of them, which is 10^18 either side of zero.
#[derive(Clone, Copy)]
pub struct Dec {
    // The millionths plus 10^24, as two digits of 64 bits: these may be aligned to 8 bytes, and one number of 128 bits may not.
    high: u64,
    low: u64,
}

impl Model for Dec {
    ghost use Rattle.std.specs.Prelude.{ℤ};
    ghost use Rattle.pit_units.specs.inner.DecFields.{millionths_of, KeepsRange, halves_of, high_back, low_back};

    ghost Value = { ℤ };

    ghost view = { millionths_of };

    ghost invariant = { KeepsRange };

    ghost inverse = { halves_of };

    ghost inverse_ok = { λ dec kept i. record
        { high = high_back dec kept i; low = low_back dec kept i } };
}

impl Dec {
    /// Returns the decimal with this number of millionths, or `None` if it is more than 10^24 either side of zero.
    pub fn new(millionths: i128) -> Option<Dec>
        ensures valid { IsSome result ↔ IsInDecimalRange millionths }
        ensures value { IfSome result (λ dec. dec ≡ millionths) }
    {
        if millionths.unsigned_abs() > MAX_MILLIONTHS {
            return None;
        }
        let raised = (millionths + MAX_MILLIONTHS as i128) as u128;
        Some(Dec {
            high: (raised / HALF) as u64,
            low: (raised % HALF) as u64,
        })
    }

    /// Returns the number of millionths: at most 10^24 either side of zero.
    pub fn millionths(self) -> i128
        ensures value { result ≡ self }
        ensures in_range { IsInDecimalRange result }
    {
        let raised = u128::from(self.high) * HALF + u128::from(self.low);
        raised as i128 - MAX_MILLIONTHS as i128
    }

    /// Returns the integer part of the decimal, without its sign and its decimals.
    pub fn whole(self) -> u64
        ensures { result ≡ unsigned_abs self / 10 ^ 6 }
    {
        (self.millionths().unsigned_abs() / MILLIONTHS as u128) as u64
    }
}

// Shows the number instead of its halves.
impl fmt::Debug for Dec {
    ghost use Rattle.std.specs.Prelude.{◌++◌, Some, codes};
    ghost use Rattle.std.specs.Fmt.{signed_decimal};

    ghost debug_output = { λ dec. Some (signed_decimal dec ++ codes " millionths") };

    fn fmt<W: fmt::Write>(&self, f: &mut fmt::Formatter<W>) -> fmt::Result {
        write!(f, "{} millionths", self.millionths())
    }
}

impl PartialEq for Dec {
    ghost use Rattle.std.specs.Ordering.{int_eq};
    ghost use Rattle.std.specs.Cmp.{int_eq_equiv, partial_equiv_from_equiv};

    ghost eq = { int_eq };

    ghost laws = { partial_equiv_from_equiv int_eq_equiv };

    fn eq(&self, other: &Dec) -> bool {
        self.millionths() == other.millionths()
    }
}

impl Eq for Dec {
    ghost use Rattle.std.specs.Cmp.{int_eq_equiv};

    ghost laws = { int_eq_equiv };
}
