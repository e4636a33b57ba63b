//! Stored lists of predecessors: the program computes each when it writes it.

ghost use Rattle.std.specs.Prelude.{IsTrue};
ghost use Rattle.precedence.specs.Zones.{HasZones};

use pit_model::plan::Plan;
use pit_model::read_plan;
use plan_parts::block::Block;
use precedence::{LazyPreds, Numbering, PredLists, Preds, number_blocks, preds};
use std::alloc::Global;
use std::test::Fail;

const ONE_BENCH: &[u8] =
    b"name,one\ngrid,0,0,0,10,10,10\nzone,1,1,1\nmill,mill,900,600,1500\nperiods,1\nrate,0.1\n";

// The indices of a block along x, y and z.
type Place = [u16; 3];

const NINE_ABOVE: &[Place] = &[
    [1, 1, 0],
    [0, 0, 1],
    [1, 0, 1],
    [2, 0, 1],
    [0, 1, 1],
    [1, 1, 1],
    [2, 1, 1],
    [0, 2, 1],
    [1, 2, 1],
    [2, 2, 1],
];

// Lists in order of identifier. Blocks after the last list have no predecessors.
type Lists = &'static [(u32, &'static [u32])];

fn blocks_at(alloc: Global, places: &[Place]) -> Result<Vec<Block>, Fail> {
    let mut blocks = Vec::new(alloc);
    for [x, y, z] in places {
        blocks.push(Block::new(*x, *y, *z, 1_000, 0, 0).ok_or("a block")?)?;
    }
    Ok(blocks)
}

fn has_zones(numbering: &Numbering, plan: &Plan) -> bool
    ensures { IsTrue result → HasZones plan.now numbering.now.blocks }
{
    numbering
        .blocks()
        .iter()
        .all(|block| usize::from(block.zone) < plan.cones().len())
}

fn numbered(alloc: Global, blocks: &[Block]) -> Result<Numbering, Fail> {
    if blocks.len() > 2_000 {
        return Err("too many blocks")?;
    }
    Ok(number_blocks(alloc, &blocks)?)
}

fn lists_by(alloc: Global, numbering: &Numbering, plan: &Plan) -> Result<Preds, Fail> {
    if !has_zones(numbering, plan) {
        return Err("zones")?;
    }
    Ok(preds(alloc, numbering, plan)?)
}

// Returns whether the block with an identifier has this list.
fn is_list(lists: &Preds, id: u32, list: &[u32]) -> bool {
    (id as usize) < lists.len() && lists.of(id) == list
}

// Returns whether blocks, in the order of their identifiers, have these lists, and `arcs` arcs altogether.
fn have_lists(
    alloc: Global,
    plan: &[u8],
    places: &[Place],
    lists: Lists,
    arcs: usize,
) -> Result<bool, Fail> {
    let plan = read_plan(alloc, plan)?;
    let blocks = blocks_at(alloc, places)?;
    let numbering = numbered(alloc, blocks.as_slice())?;
    let found = lists_by(alloc, &numbering, &plan)?;
    Ok(
        numbering.blocks() == blocks.as_slice()
            && found.len() == places.len()
            && found.arcs() == arcs
            && lists.iter().all(|(id, list)| is_list(&found, *id, list)),
    )
}

#[test]
fn nine_above(rt: HostRuntime) -> Result<(), Fail> {
    let lists: Lists = &[(0, &[2, 4, 5, 6, 8])];
    assert!(rt; have_lists(rt.alloc(), ONE_BENCH, NINE_ABOVE, lists, 5)?);
    Ok(())
}

// A row of ten blocks below another one.
const TWO_ROWS: &[Place] = &[
    [0, 0, 0],
    [1, 0, 0],
    [2, 0, 0],
    [3, 0, 0],
    [4, 0, 0],
    [5, 0, 0],
    [6, 0, 0],
    [7, 0, 0],
    [8, 0, 0],
    [9, 0, 0],
    [0, 0, 1],
    [1, 0, 1],
    [2, 0, 1],
    [3, 0, 1],
    [4, 0, 1],
    [5, 0, 1],
    [6, 0, 1],
    [7, 0, 1],
    [8, 0, 1],
    [9, 0, 1],
];

fn found_in(alloc: Global, plan: &[u8], places: &[Place]) -> Result<LazyPreds, Fail> {
    let plan = read_plan(alloc, plan)?;
    let blocks = blocks_at(alloc, places)?;
    let numbering = numbered(alloc, blocks.as_slice())?;
    if !has_zones(&numbering, &plan) {
        return Err("zones")?;
    }
    Ok(LazyPreds::new(alloc, &numbering, &plan)?)
}

// Whether a block's reduced list is one range: `len` identifiers from `first` on.
fn retains(
    alloc: Global,
    lists: &mut LazyPreds,
    block: u32,
    first: u32,
    len: u32,
) -> Result<bool, Fail> {
    let mut ranges = Vec::new(alloc);
    if (block as usize) < lists.count() {
        lists.add_retained(&mut ranges, block)?;
    }
    Ok(ranges.len() == 1 && ranges[0].first == first && ranges[0].len == len)
}

// The westernmost block has no predecessor to its west, and the easternmost none to its east.
#[test]
fn blocks_of_a_row_share_a_window(rt: HostRuntime) -> Result<(), Fail> {
    let mut found = found_in(rt.alloc(), ONE_BENCH, TWO_ROWS)?;
    assert!(rt; retains(rt.alloc(), &mut found, 0, 10, 2)?);
    assert!(rt; retains(rt.alloc(), &mut found, 1, 10, 3)?);
    assert!(rt; retains(rt.alloc(), &mut found, 8, 17, 3)?);
    assert!(rt; retains(rt.alloc(), &mut found, 9, 18, 2)?);
    Ok(())
}
