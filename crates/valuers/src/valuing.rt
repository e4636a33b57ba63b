//! Valuing a block by the stored closures of the destinations.

ghost use Rattle.std.specs.Prelude.{◌≡◌, ◌≤◌, length, All};
ghost use Rattle.plan_parts.specs.Destinations.{formulas_of};
ghost use Rattle.plan_parts.specs.formulas.WorthRange.{IsWorth};
ghost use Rattle.plan_parts.specs.declared.ranges.TheConstants.{MAX_DESTINATIONS};
ghost use Rattle.rows.specs.Valued.{worths_by};
ghost use Rattle.valuers.specs.Valuing.{AreAnswered};

use plan_parts::block::Block;
use plan_parts::formulas::destination::{Destination, Valuer};
use rows::{MAX_WORTHS, Worths};

/// Returns the worth of a block at each of 1 to 8 destinations, in their order.
pub fn worths_of(block: Block, destinations: &[Destination]) -> Worths
    requires some { 1 ≤ length destinations.now }
    requires few { length destinations.now ≤ MAX_DESTINATIONS }
    ensures asked { AreAnswered ⟦<Valuer as Fn(Block) -> i128>⟧.post destinations.now block result }
    ensures in_range { All IsWorth result }
    ensures worths { result ≡ worths_by (formulas_of destinations.now) block }
{
    let mut cells = [0i128; MAX_WORTHS];
    for (place, destination) in destinations.iter().enumerate() {
        cells[place] = destination.value(block);
    }
    Worths::new(&cells[..destinations.len()]).unwrap()
}

#[cfg(test)]
mod tests;
