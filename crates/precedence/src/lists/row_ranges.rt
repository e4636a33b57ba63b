//! The identifiers of the blocks above a block, by ranges.

ghost use Rattle.std.specs.Prelude.{◌≡◌, ℕ, ◌+◌, ◌-◌, ◌<◌, ◌≤◌, ◌++◌, OnOk, IfOk, length, slice_index};
ghost use Rattle.std.specs.List.Sorted.{IsStrictlyIncreasing};
ghost use Rattle.precedence.specs.Cone.{positions_where};
ghost use Rattle.precedence.specs.IdRanges.{ids_of};
ghost use Rattle.precedence.specs.inner.Arcs.{IsRangeOf};
ghost use Rattle.precedence.specs.inner.Outside.{AreNoWider};
ghost use Rattle.precedence.specs.inner.Rows.{is_in_rows, pasts, start_of, AreInOrder};
ghost use Rattle.precedence.specs.inner.Lists.{range};
ghost use Rattle.precedence.specs.declared.places.code.TheConstants.{CODES};

use crate::cones::cone_rows::{Row, Widths};
use crate::lists::id_range::IdRange;
use crate::lists::outside::{BEFORE_ALL, PassBlocks};
use crate::places::Places;
use crate::places::start_of::start_of;
use std::alloc::{AllocError, Global};
use std::cell::Cell;

/// The start and end (exclusive) of a row's range of identifiers, for the block visited last.
#[derive(Clone, Copy, Debug)]
pub struct Hint {
    pub first: u32,
    pub past: u32,
}

/// The value before the first block.
pub const NOTHING_KNOWN: Hint = Hint { first: 0, past: 0 };

/// Returns `count` hints without information. Fails only if memory is refused.
pub fn no_hints(alloc: Global, count: usize) -> Result<Vec<Cell<Hint>>, AllocError> {
    let mut hints = Vec::with_capacity(alloc, count)?;
    for _ in 0..count {
        hints.push(Cell::new(NOTHING_KNOWN))?;
    }
    Ok(hints)
}

/// Appends the ranges of the identifiers whose codes are in the rows, as seen from the code `from`, in ascending order. `past` has the
/// end of each row, and no row is wider than `widths`. The hints, one for each row, are guesses, such as the rows' ranges for a smaller
/// code: they change the time and not the result. `pass` decides which blocks are passed over after an empty range.
#[inline(never)]
pub fn add_ranges_in_rows<P: PassBlocks>(
    pass: &P,
    ranges: &mut Vec<IdRange>,
    places: &Places,
    rows: &[Row],
    past: &[u64],
    widths: &Widths,
    hints: &[Cell<Hint>],
    from: u64,
) -> Result<(), AllocError>
    requires in_order { AreInOrder rows.now }
    requires past { past.now ≡ pasts rows.now }
    requires widths { AreNoWider widths.now rows.now }
    requires from { from < CODES }
    ensures { OnOk result (ids_of ranges.new.items
        ≡ ids_of ranges.old.items ++ positions_where (is_in_rows from rows.now) 0 places.now.codes.items) }
{
    let mut i = 0;
    let mut after = BEFORE_ALL;
    while i < rows.len() {
        let range = add_range_in_row(ranges, places, rows[i], hint_at(hints, i, after.id), from)?;
        keep_hint(hints, i, range);
        after = pass.id_after(places, past, widths, i, range, after.retry, from);
        i = next_row(places, past, i, after.id as usize, from);
    }
    Ok(())
}

/// Returns a row's hint, raised to at least `after`, from which on blocks are looked for: the hint of a row that was passed over for
/// long is old.
#[inline(always)]
pub fn hint_at(hints: &[Cell<Hint>], i: usize, after: u32) -> Hint {
    let known = match hints.get(i) {
        Some(hint) => hint.get(),
        None => NOTHING_KNOWN,
    };
    Hint {
        first: known.first.max(after),
        past: known.past.max(after),
    }
}

/// Stores the last range of a row.
#[inline(always)]
pub fn keep_hint(hints: &[Cell<Hint>], i: usize, range: Hint) {
    if let Some(hint) = hints.get(i) {
        hint.set(range);
    }
}

// Appends the range of the identifiers whose codes are in a row, if there are any, and returns its start and end (exclusive).
#[tactic(auto, using(crate::proofs::ranges::Starts::ranges, crate::proofs::ranges::RangeLists::pushed_range))]
#[inline(always)]
fn add_range_in_row(
    ranges: &mut Vec<IdRange>,
    places: &Places,
    row: Row,
    hint: Hint,
    from: u64,
) -> Result<Hint, AllocError>
    requires { from < CODES }
    ensures range { OnOk result (ids_of ranges.new.items
        ≡ ids_of ranges.old.items ++ range from row places.now.codes.items) }
    ensures past { IfOk result (λ found. found.past
        ≡ start_of (from + row.past) places.now.codes.items) }
    ensures within { IfOk result (λ found. found.past ≤ length places.now.codes.items) }
{
    let found = find_range(places, row, hint, from);
    if found.first < found.past {
        ranges.push(IdRange {
            first: found.first,
            len: found.past - found.first,
        })?;
    }
    Ok(found)
}

/// Returns the start and end (exclusive) of a row's range of identifiers. The hint is a guess.
#[tactic(auto, using(crate::proofs::ranges::Starts::ranges))]
#[inline(always)]
pub fn find_range(places: &Places, row: Row, hint: Hint, from: u64) -> Hint
    requires { from < CODES }
    ensures { IsRangeOf places.now.codes.items from row result }
{
    let codes = places.codes.as_slice();
    let first = start_of(codes, hint.first as usize, from + row.first);
    let past = end_of_range(codes, first, hint.past as usize, from + row.past);
    Hint {
        first: first as u32,
        past: past as u32,
    }
}

// Returns the number of codes below `past`, which is at least `first`. Most rows of scattered blocks have no code, and need no search for
// it.
#[tactic(auto, using(crate::proofs::ranges::Starts::starts))]
#[inline(always)]
fn end_of_range(codes: &[u64], first: usize, hint: usize, past: u64) -> usize
    requires rising { IsStrictlyIncreasing codes.now }
    requires first { first ≤ start_of past codes.now }
    ensures { result ≡ start_of past codes.now }
{
    if first < codes.len() && codes[first] < past {
        start_of(codes, hint.max(first), past)
    } else {
        first
    }
}

/// Returns the first row after the row `i` that can have a code from the code of the identifier `id` on, or the number of rows.
#[tactic(auto, using(crate::proofs::ranges::Starts::ranges))]
#[inline(always)]
pub fn next_row(places: &Places, pasts: &[u64], i: usize, id: usize, from: u64) -> usize
    requires rising { IsStrictlyIncreasing pasts.now }
    requires i { i < length pasts.now }
    ensures later { i < result }
    ensures within { result ≤ length pasts.now }
    ensures skipped { (k : ℕ) → i < k → k < result → id < length places.now.codes.items
        → slice_index pasts.now k ≤ slice_index places.now.codes.items id - from }
{
    if id < places.codes.len() {
        let gap = places.codes[id].saturating_sub(from);
        start_of(pasts, i, gap.saturating_add(1)).max(i + 1)
    } else {
        pasts.len()
    }
}
