//! Lazily computed coefficients equal a list of coefficients, group by group, and in number.

ghost use Rattle.std.specs.Prelude.{◌<◌, length};

use mine_instance::LazyCoefs;
use mine_instance::coefs::coef::{Coef, Coefs};
use mine_instance::coefs::list::CoefList;
use pit_units::Dec;
use plan_parts::block::Block;
use plan_parts::ranges::MAX_BLOCKS;
use std::alloc::Global;
use std::test::Fail;

// The kilograms of blocks in order of identifier, and pairs of a destination and a resource.
const CASES: [(&[u64], &[(u8, u8)]); 6] = [
    (&[], &[(0, 0)]),
    (&[0, 0], &[(0, 0), (1, 0)]),
    (&[7, 0, 9], &[]),
    (&[0, 7, 0, 0, 8, 9], &[(0, 0)]),
    (&[7, 8, 0, 9, 0], &[(0, 0), (0, 1), (2, 0)]),
    (&[0, 1_000_000_000], &[(7, 7), (0, 0)]),
];

fn found(alloc: Global, kilograms: &[u64], pairs: &[(u8, u8)]) -> Result<LazyCoefs, Fail> {
    let mut blocks = Vec::new(alloc);
    for kg in kilograms {
        blocks.push(Block::new(0, 0, 0, *kg, 0, 0).ok_or("a block")?)?;
    }
    if blocks.len() > MAX_BLOCKS || pairs.len() > 64 {
        return Err("a few")?;
    }
    let pairs = Vec::from_slice(alloc, pairs)?;
    Ok(LazyCoefs::new(alloc, pairs, blocks.as_slice())?)
}

fn listed(alloc: Global, kilograms: &[u64], pairs: &[(u8, u8)]) -> Result<Coefs, Fail> {
    let mut coefs = Vec::new(alloc);
    let mut b = 0;
    for kg in kilograms {
        if *kg > 0 {
            list(&mut coefs, b, *kg, pairs)?;
        }
        b = b.wrapping_add(1);
    }
    Ok(Coefs::new(coefs))
}

fn list(coefs: &mut Vec<Coef>, b: u32, kg: u64, pairs: &[(u8, u8)]) -> Result<(), Fail> {
    let v = Dec::new(i128::from(kg) * 1000).ok_or("tonnes")?;
    for (d, r) in pairs {
        let (d, r) = (*d, *r);
        coefs.push(Coef { b, d, r, v })?;
    }
    Ok(())
}

// Returns whether the group from a place on has the coefficients of a list from there on.
fn agree_from(one: &LazyCoefs, other: &Coefs, from: usize) -> bool
    requires { from < length one.now }
{
    let group = one.group(from);
    let (b, v) = (group.b, group.v);
    let mut place = from;
    for (d, r) in group.pairs.as_slice() {
        let (d, r) = (*d, *r);
        if other.as_slice().get(place).copied() != Some(Coef { b, d, r, v }) {
            return false;
        }
        place = place.wrapping_add(1);
    }
    place > from
}

fn agree(one: &LazyCoefs, other: &Coefs) -> bool {
    for from in 0..one.len() {
        if !agree_from(one, other, from) {
            return false;
        }
    }
    one.len() == other.as_slice().len()
}

#[test]
fn coefficients_found_as_listed(rt: HostRuntime) -> Result<(), Fail> {
    for (place, (kilograms, pairs)) in CASES.iter().enumerate() {
        let found = found(rt.alloc(), kilograms, pairs)?;
        let listed = listed(rt.alloc(), kilograms, pairs)?;
        assert!(rt; agree(&found, &listed), "{place}");
    }
    Ok(())
}
