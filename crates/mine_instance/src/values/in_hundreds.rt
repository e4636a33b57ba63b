//! Cents as values.

ghost use Rattle.std.specs.Prelude.{◌≡◌};
ghost use Rattle.mine_instance.specs.OfModel.{in_hundreds};

use pit_units::Dec;

/// Converts cents to units of 100 cents.
#[inline(always)]
pub fn in_hundreds(cents: i64) -> Dec
    ensures { result ≡ in_hundreds cents }
{
    Dec::new(i128::from(cents) * 10_000).unwrap()
}
