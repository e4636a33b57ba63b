//! The start of each bench in ascending distances: a guess that shortens searches.

ghost use Rattle.std.specs.Prelude.{◌≡◌, ◌≤◌, length};
ghost use Rattle.std.specs.List.Sorted.{IsStrictlyIncreasing};
ghost use Rattle.precedence.specs.inner.Rows.{start_of};

use crate::places::code::{BENCH, ROW};
use crate::places::start_of::start_of;
use std::alloc::{AllocError, Global};

/// Returns the number of ascending distances below `target`, as `start_of`. `benches` has the start of each bench: a guess.
#[inline(always)]
pub fn start_near(distances: &[u64], benches: &[usize], target: u64) -> usize
    requires { IsStrictlyIncreasing distances.now }
    ensures { result ≡ start_of target distances.now }
{
    start_of(distances, near(distances, benches, target), target)
}

// Guesses the last distance below `target`, as if no bench had gaps between its rows.
#[inline(always)]
fn near(distances: &[u64], benches: &[usize], target: u64) -> usize {
    let bench = ((target / (BENCH / 2) + 1) / 2) as usize;
    let first = first_of(distances, benches, bench);
    let past = first_of(distances, benches, bench + 1);
    if first >= past {
        return first.saturating_sub(1);
    }
    let rows = target
        .saturating_add(ROW / 2)
        .saturating_sub(distances[first])
        / ROW;
    first
        .saturating_add(rows as usize)
        .min(past)
        .saturating_sub(1)
}

#[inline(always)]
fn first_of(distances: &[u64], benches: &[usize], bench: usize) -> usize
    ensures { result ≤ length distances.now }
{
    if bench < benches.len() {
        benches[bench].min(distances.len())
    } else {
        distances.len()
    }
}

/// Returns the start of each bench in ascending distances.
pub fn benches_of(alloc: Global, distances: &[u64]) -> Result<Vec<usize>, AllocError> {
    let mut benches = Vec::new(alloc);
    for number in 0..distances.len() {
        add_bench(&mut benches, distances[number], number)?;
    }
    Ok(benches)
}

// Stores `number` as the start of the bench of this distance, and of each earlier bench without distances, unless a start is stored.
fn add_bench(benches: &mut Vec<usize>, distance: u64, number: usize) -> Result<(), AllocError> {
    let bench = (distance / (BENCH / 2) + 1) / 2;
    while (benches.len() as u64) <= bench {
        benches.push(number)?;
    }
    Ok(())
}
