//! The cells of a `limit` record, and limits in order.

ghost use Rattle.std.specs.Prelude.{◌≡◌, ◌<◌, ◌≤◌, ◌≤ℤ◌, length, pos, bytes_eq, codes, if◌then◌else◌, position, IfErr, IfOk, IfSome, OnErr, OnOk};
ghost use Rattle.std.specs.List.{list_any, position_or_len};
ghost use Rattle.plan_parts.specs.PlanInvariant.{AreTonnes, stands_before};
ghost use Rattle.pit_model.specs.PlanRecords.{bound_in, is_letter};
ghost use Rattle.pit_model.specs.StatedCells.{below_in, tonnes_in};
ghost use Rattle.pit_model.specs.Stated.{is_same_place, with_limit};
ghost use Rattle.plan_parts.specs.declared.ranges.TheConstants.{MAX_TONNES};

use crate::cells::Cells;
use crate::numbers::number_in;
use crate::plan_fault::PlanFaultKind;
use pit_units::{Dec, MILLIONTHS, OrMemory};
use plan_parts::limit::{Bound, Limit};
use plan_parts::ranges::MAX_TONNES;

fn is_letter(cell: &[u8], letter: &[u8]) -> bool
    ensures { result ≡ bytes_eq cell.now letter.now }
{
    cell == letter
}

/// Returns the number of cells that the record must have: 6 for an interval, else 5.
pub fn limit_width(cells: &Cells) -> usize
    ensures { result ≡ (if is_letter cells.now (codes "I") then 6 else 5) }
{
    if is_letter(cells.at(3), b"I") { 6 } else { 5 }
}

/// Returns the period that a cell states, below the number of periods. Fails like `number_in`.
pub fn period_in(periods: u8, cell: &[u8]) -> Result<u8, PlanFaultKind>
    ensures value { result ≡ below_in periods cell.now }
    ensures there { IfOk result (λ n. n < periods) }
{
    let number = number_in(cell, 0, 0, periods as i128 * MILLIONTHS - 1)?;
    Ok(number.whole() as u8)
}

fn tonnes_in(cell: &[u8]) -> Result<Dec, PlanFaultKind>
    ensures value { result ≡ tonnes_in cell.now }
    ensures in_range { IfOk result (λ v. (pos 0 ≤ℤ v) × (v ≤ℤ MAX_TONNES)) }
{
    number_in(cell, 6, 0, MAX_TONNES)
}

/// Returns the bound of the record, by its letter. Fails with `Name` for another letter, and like `number_in` for its tonnes.
pub fn bound_in(cells: &Cells) -> Result<Bound, PlanFaultKind>
    ensures value { result ≡ bound_in cells.now }
    ensures in_range { IfOk result AreTonnes }
{
    let letter = cells.at(3);
    if is_letter(letter, b"I") {
        let low = tonnes_in(cells.at(4))?;
        let high = tonnes_in(cells.at(5))?;
        Ok(Bound::Between(low, high))
    } else if is_letter(letter, b"L") {
        Ok(Bound::AtMost(tonnes_in(cells.at(4))?))
    } else if is_letter(letter, b"G") {
        Ok(Bound::AtLeast(tonnes_in(cells.at(4))?))
    } else {
        Err(PlanFaultKind::Name)
    }
}

fn is_same_place(limit: &Limit, other: &Limit) -> bool
    ensures { result ≡ is_same_place limit.now other.now }
{
    limit.resource == other.resource && limit.period == other.period
}

/// Returns whether the resource has a limit in the period.
pub fn is_limited(limits: &[Limit], limit: &Limit) -> bool
    ensures { result ≡ list_any (λ m. is_same_place limit.now m) limits.now }
{
    limits.iter().any(|other| is_same_place(limit, other))
}

// Returns the index at which a limit is inserted: the index of the first limit that it must precede, or the length.
#[tactic(auto, using(crate::proofs::Limits::placed))]
fn index_for(limits: &[Limit], limit: &Limit) -> usize
    ensures place { result ≡ position_or_len (λ m. stands_before limit.now m) limits.now }
    ensures within { result ≤ length limits.now }
{
    first_after(limits, limit).unwrap_or(limits.len())
}

fn first_after(limits: &[Limit], limit: &Limit) -> Option<usize>
    ensures place { result ≡ position (λ m. stands_before limit.now m) limits.now }
    ensures within { IfSome result (λ n. n < length limits.now) }
{
    limits.iter().position(|other| limit.stands_before(other))
}

/// Inserts a limit in order, by resource and then period. Fails only if memory is refused; then the limits are unchanged.
pub fn insert_limit(limits: &mut Vec<Limit>, limit: Limit) -> Result<(), OrMemory<PlanFaultKind>>
    ensures ok { OnOk result (limits.new.items ≡ with_limit limit limits.old.items) }
    ensures err { IfErr result (λ error. error ≡ OrMemory.OutOfMemory) }
    ensures kept { OnErr result (limits.new.items ≡ limits.old.items) }
{
    let place = index_for(limits.as_slice(), &limit);
    limits.insert(place, limit)?;
    Ok(())
}
