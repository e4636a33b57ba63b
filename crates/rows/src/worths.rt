//! The worths of a block, one for each destination.

ghost use Rattle.std.specs.Prelude.{◌≡◌, ◌≤◌, ◌↔◌, length, IsSome, IfSome};
ghost use Rattle.plan_parts.specs.declared.ranges.TheConstants.{MAX_DESTINATIONS};

use plan_parts::ranges::MAX_DESTINATIONS;
use std::marker::Model;

/// The largest number of worths of a block: one for each destination of a plan.
pub const MAX_WORTHS: usize = MAX_DESTINATIONS as usize;

/// 1 to 8 worths in cents, one for each destination, in the order of the plan. Allocates no memory. Contracts see the list of
/// the worths.
#[derive(Clone, Copy, Debug, PartialEq, Eq)]
pub struct Worths {
    // zeros after the worths
    cells: [i128; MAX_WORTHS],
    count: usize,
}

impl Model for Worths {
    ghost use Rattle.std.specs.Prelude.{ℤ, List};

    ghost Value = { List ℤ };

    ghost use Rattle.rows.specs.inner.WorthsFields.{worths_in, KeepsWorths, cells_of, cells_back, count_back};

    ghost view = { worths_in };

    ghost invariant = { KeepsWorths };

    ghost inverse = { cells_of };

    ghost inverse_ok = { λ w h i. record { cells = cells_back w h i; count = count_back w h i } };
}

impl Worths {
    /// Makes worths from this list, or returns `None` if there are not 1 to 8.
    pub fn new(worths: &[i128]) -> Option<Worths>
        ensures valid { IsSome result
            ↔ ((1 ≤ length worths.now) × (length worths.now ≤ MAX_DESTINATIONS)) }
        ensures value { IfSome result (λ held. held ≡ worths.now) }
    {
        let count = worths.len();
        if count == 0 || count > MAX_WORTHS {
            return None;
        }
        let mut cells = [0; MAX_WORTHS];
        cells[..count].copy_from_slice(worths);
        Some(Worths { cells, count })
    }

    /// Makes worths from this list of 1 to 8 cents.
    pub fn of_cents(cents: &[i64]) -> Worths
        requires some { 1 ≤ length cents.now }
        requires few { length cents.now ≤ MAX_DESTINATIONS }
        ensures { result ≡ cents.now }
    {
        let mut cells = [0i128; MAX_WORTHS];
        for (place, worth) in cents.iter().enumerate() {
            cells[place] = i128::from(*worth);
        }
        Worths::new(&cells[..cents.len()]).unwrap()
    }

    /// Returns the worths, in the order of the destinations.
    pub fn as_slice(&self) -> &[i128]
        ensures value { result.now ≡ self.now }
        ensures count { (1 ≤ length self.now) × (length self.now ≤ MAX_DESTINATIONS) }
    {
        &self.cells[..self.count]
    }
}
