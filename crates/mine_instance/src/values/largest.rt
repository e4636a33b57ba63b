//! The largest of some numbers.

ghost use Rattle.std.specs.Prelude.{◌≡◌, ◌<◌, ◌≤ℤ◌, ℤ, length, map, slice_index_or, All, Contains};
ghost use Rattle.mine_instance.specs.Largest.{first_largest, largest};
ghost use Rattle.mine_instance.specs.OfModel.{in_hundreds};

use pit_units::Dec;

/// Returns the place of the first largest number. There must be a number.
pub fn first_largest(numbers: &[Dec]) -> usize
    requires { 0 < length numbers.now }
    ensures value { result ≡ first_largest numbers.now }
    ensures within { result < length numbers.now }
    ensures most { (d : ℤ) → All (λ n. n ≤ℤ slice_index_or numbers.now result d) numbers.now }
{
    let mut best = 0;
    for index in 1..numbers.len() {
        if numbers[best].millionths() < numbers[index].millionths() {
            best = index;
        }
    }
    best
}

/// Returns the largest number. There must be a number.
pub fn largest(numbers: &[Dec]) -> Dec
    requires { 0 < length numbers.now }
    ensures value { result ≡ largest numbers.now }
    ensures one { Contains numbers.now result }
    ensures most { All (λ n. n ≤ℤ result) numbers.now }
{
    numbers[first_largest(numbers)]
}

/// Returns the place of the first largest value in cents. There must be a value.
pub fn first_largest_of_cents(cents: &[i64]) -> usize
    requires { 0 < length cents.now }
    ensures value { result ≡ first_largest (map in_hundreds cents.now) }
    ensures within { result < length cents.now }
{
    let mut best = 0;
    for index in 1..cents.len() {
        if cents[best] < cents[index] {
            best = index;
        }
    }
    best
}
