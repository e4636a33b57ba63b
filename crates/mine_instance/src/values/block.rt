//! The values of one block.

ghost use Rattle.std.specs.Prelude.{◌≡◌, ◌<◌, length, slice_index_or};
ghost use Rattle.mine_instance.specs.BlockValues.{values_in};
ghost use Rattle.mine_instance.specs.Largest.{first_largest, largest};

use crate::values::in_hundreds::in_hundreds;
use crate::values::largest::{first_largest, first_largest_of_cents, largest};
use pit_units::Dec;

/// The values of a block, one for each destination, in the order of the destinations.
#[derive(Clone, Copy, Debug)]
pub enum BlockValues<'a> {
    /// In units of 100 cents, as in an instance.
    Hundreds(&'a [Dec]),
    /// In cents, like the worths of a row.
    Cents(&'a [i64]),
}

impl<'a> BlockValues<'a> {
    /// Returns the number of values.
    #[inline(always)]
    pub fn len(&self) -> usize
        ensures { result ≡ length (values_in self.now) }
    {
        match self {
            BlockValues::Hundreds(values) => values.len(),
            BlockValues::Cents(cents) => cents.len(),
        }
    }

    /// Returns the value at a destination, in units of 100 cents.
    #[inline(always)]
    pub fn at(&self, destination: usize) -> Dec
        requires { destination < length (values_in self.now) }
        ensures { result ≡ slice_index_or (values_in self.now) destination result }
    {
        match self {
            BlockValues::Hundreds(values) => *at_destination(values, destination),
            BlockValues::Cents(cents) => in_hundreds(*at_destination(cents, destination)),
        }
    }

    /// Returns the first destination with the largest value. There must be a value.
    pub fn first_largest(&self) -> usize
        requires { 0 < length (values_in self.now) }
        ensures value { result ≡ first_largest (values_in self.now) }
        ensures within { result < length (values_in self.now) }
    {
        match self {
            BlockValues::Hundreds(values) => first_largest(values),
            BlockValues::Cents(cents) => first_largest_of_cents(cents),
        }
    }

    /// Returns the largest value, in units of 100 cents. There must be a value.
    pub fn largest(&self) -> Dec
        requires { 0 < length (values_in self.now) }
        ensures { result ≡ largest (values_in self.now) }
    {
        match self {
            BlockValues::Hundreds(values) => largest(values),
            BlockValues::Cents(cents) => in_hundreds(cents[first_largest_of_cents(cents)]),
        }
    }
}

// Returns the element of a destination.
#[inline(always)]
fn at_destination<T>(each: &[T], destination: usize) -> &T
    requires { destination < length each.now }
    ensures { result.now ≡ slice_index_or each.now destination result.now }
{
    &each[destination]
}
