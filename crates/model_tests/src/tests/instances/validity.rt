//! Instances made manually: exactly those with all ranges, lengths and orders are valid.

ghost use Rattle.std.specs.Prelude.{◌≡◌, vec_len, IfOk};

use crate::tests::texts::{LIMITED, instance_of};
use mine_instance::blocks::Blocks;
use mine_instance::coefs::coef::{Coef, Coefs};
use mine_instance::instance::Instance;
use mine_instance::is_valid;
use mine_instance::limits::Limits;
use mine_instance::values::Values;
use pit_units::Dec;
use plan_parts::block::Block;
use plan_parts::limit::{Bound, Limit};
use precedence::Preds;
use std::alloc::Global;
use std::test::Fail;

// Returns two blocks, the second a predecessor of the first, with two destinations, two periods and one resource.
fn valid(alloc: Global) -> Result<Instance, Fail> {
    instance_of(alloc, LIMITED)
}

fn dec(millionths: i128) -> Result<Dec, Fail> {
    Ok(Dec::new(millionths).ok_or("a decimal")?)
}

// Periods, destinations, resources, and millionths of the rate; and whether the instance is valid with them.
const NUMBERS: [(Numbers, bool); 10] = [
    ((2, 2, 1, 0), true),
    ((100, 2, 8, 1_000_000), true),
    ((0, 2, 1, 0), false),
    ((101, 2, 1, 0), false),
    ((2, 0, 1, 0), false),
    ((2, 3, 1, 0), false),
    ((2, 9, 1, 0), false),
    ((2, 2, 9, 0), false),
    ((2, 2, 1, -1), false),
    ((2, 2, 1, 1_000_001), false),
];

type Numbers = (u8, u8, u8, i128);

fn with_numbers(
    alloc: Global,
    (periods, destinations, resources, rate): Numbers,
) -> Result<bool, Fail> {
    let mut instance = valid(alloc)?;
    instance.periods = periods;
    instance.destinations = destinations;
    instance.resources = resources;
    instance.rate = dec(rate)?;
    Ok(is_valid(&instance))
}

#[test]
fn numbers_of_instances(rt: HostRuntime) -> Result<(), Fail> {
    for (place, (numbers, holds)) in NUMBERS.iter().enumerate() {
        assert!(rt; with_numbers(rt.alloc(), *numbers)? == *holds, "{place}");
    }
    Ok(())
}

// The numbers of blocks, of blocks with values, and of values for each; and whether the instance is valid with them.
const COUNTS: [(usize, usize, usize, bool); 7] = [
    (2, 2, 2, true),
    (1, 2, 2, false),
    (3, 2, 2, false),
    (2, 1, 2, false),
    (2, 3, 2, false),
    (2, 2, 1, false),
    (2, 2, 3, false),
];

fn blocks_of(alloc: Global, count: usize) -> Result<Blocks, Fail> {
    let mut blocks = Vec::new(alloc);
    for _block in 0..count {
        blocks.push(Block::new(0, 0, 0, 0, 0, 0).ok_or("a block")?)?;
    }
    Ok(Blocks::new(blocks))
}

fn zeros(alloc: Global, count: usize) -> Result<Vec<Dec>, Fail>
    ensures { IfOk result (λ all. vec_len all ≡ count) }
{
    let mut all = Vec::new(alloc);
    all.resize(count, dec(0)?)?;
    Ok(all)
}

fn values_of(alloc: Global, count: usize, width: usize) -> Result<Values, Fail> {
    let Some(len) = count.checked_mul(width) else {
        return Err("too many values")?;
    };
    Ok(Values::new(zeros(alloc, len)?, count, width))
}

fn with_counts(alloc: Global, blocks: usize, count: usize, width: usize) -> Result<bool, Fail> {
    let mut instance = valid(alloc)?;
    instance.blocks = blocks_of(alloc, blocks)?;
    instance.values = values_of(alloc, count, width)?;
    Ok(is_valid(&instance))
}

#[test]
fn lengths_of_instances(rt: HostRuntime) -> Result<(), Fail> {
    for (place, (blocks, count, width, holds)) in COUNTS.iter().enumerate() {
        let found = with_counts(rt.alloc(), *blocks, *count, *width)?;
        assert!(rt; found == *holds, "{place}");
    }
    Ok(())
}

// Lists of predecessors for two blocks; in valid ones, no list has an identifier of no block, the block itself, or an identifier
// twice.
const LISTS: [(&[&[u32]], bool); 10] = [
    (&[&[1], &[]], true),
    (&[&[], &[]], true),
    (&[&[1], &[0]], true),
    (&[&[0], &[]], false),
    (&[&[], &[1]], false),
    (&[&[2], &[]], false),
    (&[&[], &[0, 2]], false),
    (&[&[1, 1], &[]], false),
    (&[&[1]], false),
    (&[&[1], &[], &[]], false),
];

fn with_lists(alloc: Global, lists: &[&[u32]]) -> Result<bool, Fail> {
    let mut instance = valid(alloc)?;
    let mut preds = Preds::new(alloc);
    for list in lists {
        preds.push(list)?;
    }
    instance.preds = preds;
    Ok(is_valid(&instance))
}

#[test]
fn predecessors_of_instances(rt: HostRuntime) -> Result<(), Fail> {
    for (place, (lists, holds)) in LISTS.iter().enumerate() {
        assert!(rt; with_lists(rt.alloc(), lists)? == *holds, "{place}");
    }
    Ok(())
}

// Blocks, destinations and resources of coefficients; valid ones rise in this order.
const COEFS: [(&[(u32, u8, u8)], bool); 10] = [
    (&[], true),
    (&[(0, 0, 0), (0, 1, 0)], true),
    (&[(0, 1, 0), (1, 0, 0)], true),
    (&[(2, 0, 0)], false),
    (&[(0, 2, 0)], false),
    (&[(0, 0, 1)], false),
    (&[(0, 0, 0), (0, 0, 0)], false),
    (&[(0, 1, 0), (0, 0, 0)], false),
    (&[(1, 0, 0), (0, 1, 0)], false),
    (&[(0, 0, 0), (1, 0, 0), (0, 1, 0)], false),
];

fn with_coefs(alloc: Global, places: &[(u32, u8, u8)]) -> Result<bool, Fail> {
    let mut instance = valid(alloc)?;
    let mut coefs = Vec::new(alloc);
    let v = dec(-1)?;
    for (b, d, r) in places {
        let (b, d, r) = (*b, *d, *r);
        coefs.push(Coef { b, d, r, v })?;
    }
    instance.coefs = Coefs::new(coefs);
    Ok(is_valid(&instance))
}

#[test]
fn coefficients_of_instances(rt: HostRuntime) -> Result<(), Fail> {
    for (place, (coefs, holds)) in COEFS.iter().enumerate() {
        assert!(rt; with_coefs(rt.alloc(), coefs)? == *holds, "{place}");
    }
    Ok(())
}

// Resources, periods and both ends of intervals; valid ones rise by resource and period.
const LIMITS: [(&[(u8, u8, i128, i128)], bool); 9] = [
    (&[], true),
    (&[(0, 0, -2, -2), (0, 1, 0, 7)], true),
    (&[(1, 0, 0, 0)], false),
    (&[(0, 2, 0, 0)], false),
    (&[(0, 0, 1, 0)], false),
    (&[(0, 0, 0, 0), (0, 0, 1, 1)], false),
    (&[(0, 1, 0, 0), (0, 0, 0, 0)], false),
    (&[(0, 0, 0, 0), (0, 1, 7, 6)], false),
    (&[(0, 0, 0, 0), (0, 1, 0, 0), (0, 0, 0, 0)], false),
];

fn with_limits(alloc: Global, intervals: &[(u8, u8, i128, i128)]) -> Result<bool, Fail> {
    let mut instance = valid(alloc)?;
    let mut limits = Vec::new(alloc);
    for (resource, period, low, high) in intervals {
        limits.push(Limit {
            resource: *resource,
            period: *period,
            bound: Bound::Between(dec(*low)?, dec(*high)?),
        })?;
    }
    instance.limits = Limits::new(limits);
    Ok(is_valid(&instance))
}

#[test]
fn limits_of_instances(rt: HostRuntime) -> Result<(), Fail> {
    for (place, (limits, holds)) in LIMITS.iter().enumerate() {
        assert!(rt; with_limits(rt.alloc(), limits)? == *holds, "{place}");
    }
    Ok(())
}
