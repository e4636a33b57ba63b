//! Blocks that follow one another along x and have the same cone.

ghost use Rattle.std.specs.Prelude.{◌≡◌, ◌+◌, ◌<◌, All, IfOk, length};
ghost use Rattle.precedence.specs.inner.SameCone.{HaveSameCone, HaveSameConeFrom, FollowAlong};

use std::alloc::{AllocError, Global};

/// Returns, for each block by identifier, the number of blocks from it on that follow one another along x and have the same cone. A row
/// of a model has at most 10,000 blocks.
pub fn same_cone_of(
    alloc: Global,
    codes: &[u64],
    zones: &[u8],
    of_zone: &[usize],
) -> Result<Vec<u16>, AllocError>
    requires each { length zones.now ≡ length codes.now }
    requires zones { All (λ z. z < length of_zone.now) zones.now }
    ensures { IfOk result (λ same_cone. HaveSameCone codes.now of_zone.now zones.now same_cone.items) }
{
    let mut same_cone = vec![in alloc; 1; codes.len()]?;
    let mut after = 0;
    let mut id = codes.len();
    while id > 0 {
        id -= 1;
        after = same_cone_from(codes, zones, of_zone, id, after);
        same_cone[id] = after;
    }
    Ok(same_cone)
}

/// Returns, for each code, the number of codes from it on that follow one another.
pub fn follow_of(alloc: Global, codes: &[u64]) -> Result<Vec<u16>, AllocError>
    ensures { IfOk result (λ follow. FollowAlong codes.now follow.items) }
{
    let one_zone = vec![in alloc; 0; codes.len()]?;
    same_cone_of(alloc, codes, one_zone.as_slice(), &[0])
}

// Returns the number of blocks from `id` on that follow one another with the same cone, if there are `after` such blocks from `id` + 1
// on.
fn same_cone_from(codes: &[u64], zones: &[u8], of_zone: &[usize], id: usize, after: u16) -> u16
    requires each { length zones.now ≡ length codes.now }
    requires zones { All (λ z. z < length of_zone.now) zones.now }
    requires id { id < length codes.now }
    requires after { HaveSameConeFrom codes.now of_zone.now zones.now (id + 1) after }
    ensures { HaveSameConeFrom codes.now of_zone.now zones.now id result }
{
    let next = id + 1;
    if after > 0
        && codes[next].saturating_sub(codes[id]) == 1
        && of_zone[zones[next] as usize] == of_zone[zones[id] as usize]
    {
        after.saturating_add(1)
    } else {
        1
    }
}
