//! Computes the blocks that the lanes of a window retain.

ghost use Rattle.std.specs.Prelude.{◌≡◌, ◌≢◌, ◌+◌, ◌^◌, ◌<◌, ◌++◌, ◌∷◌, [], OnOk, length};
ghost use Rattle.precedence.specs.declared.lanes.strips.Found.{Found};
ghost use Rattle.precedence.specs.inner.lanes.Windows.{AreCovers, AreFound, AreFoundBy};

use crate::cones::cone_table::ConeTable;
use crate::lanes::bits::{first_from, offsets_seen, seen_at};
use crate::lanes::covering::{drop_by_all, drop_by_covers, uncovered};
use crate::lanes::strips::{Cover, Found, Sight};
use std::alloc::AllocError;
use std::cell::Cell;

/// Puts the distances that lanes retain, of all that they see, into `found`.
pub fn serve(
    found: &mut Vec<Found>,
    covers: &mut Vec<Cover>,
    tables: &[ConeTable],
    sight: &Sight,
    lanes: u128,
) -> Result<(), AllocError>
    requires found { found.old.items ≡ [] }
    requires covers { covers.old.items ≡ [] }
    requires few { lanes < 2 ^ 64 }
    requires each { length sight.now.by_table.items ≡ length tables.now }
    ensures { OnOk result (AreFound tables.now sight.now lanes (10 ^ 15) found.new.items) }
{
    for number in 0..sight.all.strips.len() {
        serve_strip(found, covers, tables, sight, lanes, number)?;
    }
    Ok(())
}

// Appends the distances that lanes retain of one strip.
#[inline(always)]
fn serve_strip(
    found: &mut Vec<Found>,
    covers: &mut Vec<Cover>,
    tables: &[ConeTable],
    sight: &Sight,
    lanes: u128,
    number: usize,
) -> Result<(), AllocError>
    requires few { lanes < 2 ^ 64 }
    requires number { number < length sight.now.all.strips.items }
    requires each { length sight.now.by_table.items ≡ length tables.now }
    requires covers { AreCovers lanes sight.now.by_table.items covers.old.items }
    requires found { AreFoundBy tables.now sight.now lanes number found.old.items }
    ensures covers { OnOk result (AreCovers lanes sight.now.by_table.items covers.new.items) }
    ensures found { OnOk result (AreFoundBy tables.now sight.now lanes (number + 1) found.new.items) }
{
    let strip = sight.all.strips[number];
    let by_table = sight.by_table.as_slice();
    let seen = offsets_seen(lanes, strip.word, strip.len);
    let mut offsets = uncovered(seen, &strip, covers.as_slice(), tables);
    let mut at = first_from(offsets, 0);
    while at < strip.len {
        let distance = strip.start + u64::from(at);
        let there = seen_at(lanes, strip.word, at);
        let rest = drop_by_covers(there, covers.as_slice(), tables, by_table, distance);
        if rest != 0 {
            let kept = drop_by_all(rest, lanes, covers, tables, by_table, distance)?;
            add_found(found, distance, kept, strip.id)?;
            offsets = uncovered(offsets, &strip, covers.as_slice(), tables);
        }
        at = first_from(offsets, at + 1);
    }
    Ok(())
}

// Appends what lanes retain at a distance, if some lane does.
fn add_found(
    found: &mut Vec<Found>,
    distance: u64,
    lanes: u128,
    near: u32,
) -> Result<(), AllocError>
    requires few { lanes < 2 ^ 64 }
    ensures some { OnOk result (lanes ≢ 0 → (f : Found) × (f.distance ≡ distance) × (f.lanes ≡ lanes) × (found.new.items ≡ found.old.items ++ f ∷ [])) }
    ensures none { OnOk result (lanes ≡ 0 → found.new.items ≡ found.old.items) }
{
    if lanes != 0 {
        found.push(Found {
            distance,
            lanes: lanes as u64,
            near: Cell::new(near),
        })?;
    }
    Ok(())
}
