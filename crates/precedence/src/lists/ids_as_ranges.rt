//! Converts lists of identifiers to ranges, and ranges to lists.

ghost use Rattle.std.specs.Prelude.{◌≡◌, ◌<◌, ◌≤◌, ◌++◌, ◌∷◌, [], OnOk, length, take};
ghost use Rattle.precedence.specs.IdRanges.{ids_of, ids_of_range};

use crate::lists::id_range::IdRange;
use std::alloc::AllocError;

/// Appends an identifier: lengthens the last range if the identifier follows it, and appends a range otherwise. Fails only if memory is
/// refused.
#[tactic(auto, using(crate::proofs::ranges::RangeLists::ids_lengthen))]
#[inline(always)]
pub fn push_id(ranges: &mut Vec<IdRange>, id: u32) -> Result<(), AllocError>
    ensures { OnOk result (ids_of ranges.new.items ≡ ids_of ranges.old.items ++ id ∷ []) }
{
    // The length of a range from 0 to `u32::MAX` does not fit `u32`.
    match ranges.last_mut() {
        Some(last) if id > 0 && id < u32::MAX && last.first + (last.len - 1) == id - 1 => {
            last.len += 1;
        }
        _ => ranges.push(IdRange { first: id, len: 1 })?,
    }
    Ok(())
}

/// Appends ranges that represent a list of identifiers.
pub fn add_ranges_of_ids(ranges: &mut Vec<IdRange>, ids: &[u32]) -> Result<(), AllocError>
    ensures { OnOk result (ids_of ranges.new.items ≡ ids_of ranges.old.items ++ ids.now) }
{
    let mut rest = ids;
    while !rest.is_empty() {
        let range = leading_range(rest);
        ranges.push(range)?;
        rest = &rest[range.len as usize..];
    }
    Ok(())
}

// Returns the range of the consecutive identifiers at the start of the list.
fn leading_range(ids: &[u32]) -> IdRange
    requires { 0 < length ids.now }
    ensures some { 0 < result.len }
    ensures within { result.len ≤ length ids.now }
    ensures range { take result.len ids.now ≡ ids_of_range result }
{
    let first = ids[0];
    let most = ids.len().min((u32::MAX - first) as usize);
    let mut len = 1;
    while len < most && ids[len] == first + len as u32 {
        len += 1;
    }
    IdRange {
        first,
        len: len as u32,
    }
}

/// Appends the identifiers of ranges.
pub fn add_ids_of_ranges(list: &mut Vec<u32>, ranges: &[IdRange]) -> Result<(), AllocError>
    ensures { OnOk result (list.new.items ≡ list.old.items ++ ids_of ranges.now) }
{
    for range in ranges {
        add_ids_of_range(list, *range)?;
    }
    Ok(())
}

fn add_ids_of_range(list: &mut Vec<u32>, range: IdRange) -> Result<(), AllocError>
    ensures { OnOk result (list.new.items ≡ list.old.items ++ ids_of_range range) }
{
    for k in 0..range.len {
        list.push(range.first + k)?;
    }
    Ok(())
}
