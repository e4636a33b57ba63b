//! Tests of a valuer on one thread, and of a valuer with a reader.

ghost use Rattle.std.specs.Prelude.{◌≡◌, ◌≤◌, ◌^◌, true, [], IfOk, length};
ghost use Rattle.lane.specs.MessageKinds.{is_done};
ghost use Rattle.plan_parts.specs.formulas.Worth.{mill};

use super::*;
use crate::gate::OpenGate;
use crate::lane_tests::{gather_one, only_put, only_take, stop_one};
use lane::{Closer, PutEnd, Stopped, open};
use linked_list_allocator::LocalHeap;
use plan_parts::block::Block;
use plan_parts::formulas::destination::Valuer;
use plan_parts::formulas::formula::Formula;
use plan_parts::formulas::worth::mill_worth;
use rows::{Item, Valued, Worths};
use std::test::Fail;
use std::thread;
use std::thread::Threads;

fn mill(alloc: Global, cost: u64) -> Result<Destination, Fail>
    requires { cost ≤ 10 ^ 7 }
{
    let valuer: Valuer = Box::new(
        alloc,
        move |block: Block| -> i128
            requires { cost ≤ 10 ^ 7 }
            ensures { result ≡ mill block 900 600 cost }
        { mill_worth(block, 900, 600, cost) },
    )?;
    let formula = Formula::Mill {
        recovery: 900,
        price: 600,
        cost,
    };
    Ok(Destination::new(formula, valuer))
}

fn ore() -> Result<Block, Fail> {
    Ok(Block::new(0, 0, 0, 1_000_000, 5_000_000_000, 0).ok_or("a block")?)
}

#[test]
fn lane_on_one_thread(rt: HostRuntime) -> Result<(), Fail> {
    let alloc = rt.alloc();
    let plant = mill(alloc, 1500)?;
    let block = ore()?;
    let (closer, mut puts, mut takes) = open(alloc, 1, 1, 3)?;
    let mut put = puts.pop().expect(&rt, "a put end");
    assert_eq!(rt; put.rows(), 0);
    put.row(&rt, block);
    let _ended = put.end(&rt);
    closer.quit(&rt, 1);

    let take = takes.pop().expect(&rt, "a take end");
    let result = value_all(&rt, alloc, take, 0, &[plant], &OpenGate);
    assert!(rt; !result.memory);
    let row = Item::Row(Valued {
        file: 0,
        place: 0,
        block,
        worths: Worths::new(&[1_200_000]).expect(&rt, "worths"),
    });
    let passed_on = [row, Item::End { file: 0, rows: 1 }];
    assert_eq!(rt; result.items.as_slice(), passed_on.as_slice());
    Ok(())
}

// Puts two rows and the end mark of the one file of a lane, and ends its taker.
fn put_two<R: Wait>(rt: &R, closer: Closer, mut put: PutEnd, first: Block, second: Block)
    requires taker { 1 ≤ closer.takers }
    requires unsent { put.sent ≡ [] }
{
    put.row(rt, first);
    put.row(rt, second);
    let _ended = put.end(rt);
    closer.quit(rt, 1);
}

// Returns the take end of a lane that holds two rows, the end mark and a Quit.
fn two_rows<R: Wait>(rt: &R, alloc: Global) -> Result<TakeEnd, Fail> {
    let second = Block::new(10, 0, 0, 2_700_000, 0, 0).ok_or("a block")?;
    let first = ore()?;
    let (closer, puts, takes) = open(alloc, 1, 1, 4)?;
    let put = only_put(&closer, puts).ok_or("a put end")?;
    let take = only_take(&closer, takes).ok_or("a take end")?;
    put_two(rt, closer, put, first, second);
    Ok(take)
}

// Returns whether two rows and an end mark give the same three items, packed and unpacked.
fn packs_the_items<R: Wait>(
    rt: &R,
    alloc: Global,
    destinations: &[Destination],
) -> Result<bool, Fail>
    requires some { 1 ≤ length destinations.now }
    requires few { length destinations.now ≤ 8 }
{
    let plain = value_all(rt, alloc, two_rows(rt, alloc)?, 0, destinations, &OpenGate);
    let packed = value_packed(rt, alloc, two_rows(rt, alloc)?, 0, destinations, &OpenGate);
    let mut same = plain.items.as_slice().len() == 3 && packed.items.len() == 3;
    for (position, item) in plain.items.as_slice().iter().enumerate() {
        same = same && position < packed.items.len() && packed.items.at(position) == *item;
    }
    Ok(same)
}

// Does the same for rows with `count` worths, one for each of `count` mills.
fn packs_worths<R: Wait>(rt: &R, alloc: Global, count: u64) -> Result<bool, Fail>
    requires { count ≤ 8 }
{
    let mut mills = Vec::new(alloc);
    for cost in 0..count {
        mills.push(mill(alloc, cost)?)?;
    }
    let worths = mills.len();
    Ok(1 <= worths && worths <= 8 && packs_the_items(rt, alloc, &mills)?)
}

#[test]
fn packed_items_are_the_items(rt: HostRuntime) -> Result<(), Fail> {
    let alloc = rt.alloc();
    assert!(rt; packs_worths(&rt, alloc, 1)?);
    assert!(rt; packs_worths(&rt, alloc, 3)?);
    assert!(rt; packs_worths(&rt, alloc, 8)?);
    Ok(())
}

// Puts six rows and the end mark of the one file of a lane, and stops the lane.
fn put_six<R: Wait>(
    rt: &R,
    alloc: Global,
    closer: Closer,
    mut put: PutEnd,
    block: Block,
) -> Result<Stopped, AllocError>
    requires lane { put.lane ≡ closer.lane }
    requires file { (put.file ≡ 0) × (closer.files ≡ 1) }
    requires unsent { put.sent ≡ [] }
    ensures lane { IfOk result (λ stopped. stopped.lane ≡ closer.lane) }
    ensures takers { IfOk result (λ stopped. stopped.takers ≡ closer.takers) }
{
    for _row in 0..6u32 {
        put.row(rt, block);
    }
    let ended = put.end(rt);
    stop_one(rt, alloc, closer, ended)
}

// Runs a reader that puts six rows through a lane of capacity 1, and a valuer whose list is in a heap of `bytes` bytes, packed or not. Returns
// the number of gathered rows, the number of the valuer's items, and whether it was refused memory.
fn passed_on<R: Threads + Wait + Sync>(
    rt: &R,
    alloc: Global,
    destinations: &[Destination],
    block: Block,
    bytes: usize,
    packed: bool,
) -> Result<(u64, usize, bool), Fail>
    requires some { 1 ≤ length destinations.now }
    requires few { length destinations.now ≤ 8 }
{
    let (closer, puts, takes) = open(alloc, 1, 1, 1)?;
    let put = only_put(&closer, puts).ok_or("a put end")?;
    let take = only_take(&closer, takes).ok_or("a take end")?;
    let (stopped, taken) = thread::join(
        rt,
        move || -> Result<Stopped, AllocError>
            requires lane { put.lane ≡ closer.lane }
            requires file { (put.file ≡ 0) × (closer.files ≡ 1) }
            requires unsent { put.sent ≡ [] }
            ensures lane { IfOk result (λ stopped. stopped.lane ≡ closer.lane) }
            ensures takers { IfOk result (λ stopped. stopped.takers ≡ closer.takers) }
        { put_six(rt, alloc, closer, put, block) },
        move || -> Result<(TakeEnd, usize, bool), AllocError>
            requires some { 1 ≤ length destinations.now }
            requires few { length destinations.now ≤ 8 }
            ensures lane { IfOk result (λ taken. taken.0.lane ≡ take.lane) }
            ensures taker { IfOk result (λ taken. taken.0.taker ≡ take.taker) }
            ensures done { IfOk result (λ taken. is_done taken.0.took ≡ true) }
        { take_into_heap(rt, alloc, take, destinations, bytes, packed) },
    );
    let (take, count, memory) = taken?;
    let gathered = gather_one(rt, alloc, stopped?, take)?;
    Ok((gathered.rows(), count, memory))
}

// Takes all messages into a list in a heap of `bytes` bytes. Returns the number of items, and whether memory was refused.
fn take_into_heap<R: Wait>(
    rt: &R,
    alloc: Global,
    take: TakeEnd,
    destinations: &[Destination],
    bytes: usize,
    packed: bool,
) -> Result<(TakeEnd, usize, bool), AllocError>
    requires some { 1 ≤ length destinations.now }
    requires few { length destinations.now ≤ 8 }
    ensures lane { IfOk result (λ taken. taken.0.lane ≡ take.lane) }
    ensures taker { IfOk result (λ taken. taken.0.taker ≡ take.taker) }
    ensures done { IfOk result (λ taken. is_done taken.0.took ≡ true) }
{
    let heap = LocalHeap::new(alloc, bytes)?;
    if packed {
        let items = PackedItems::new(&heap, destinations.len());
        let (take, items, memory) = take_all(rt, take, 0, destinations, &OpenGate, items);
        return Ok((take, items.len(), memory));
    }
    let (take, items, memory) = take_all(rt, take, 0, destinations, &OpenGate, Vec::new(&heap));
    Ok((take, items.len(), memory))
}

// Memory is refused for the first item, for the fifth, or for none. The reader always ends, all rows are gathered, and the items before the
// refusal are kept. A packed list is refused memory for items or, with 112 bytes, for worths.
#[test]
fn growth_refused(rt: HostRuntime) -> Result<(), Fail> {
    let alloc = rt.alloc();
    let plant = [mill(alloc, 1500)?];
    let heaps = [
        (false, 64usize, 0usize),
        (false, 1_024, 4),
        (false, 65_536, 7),
        (true, 64, 0),
        (true, 112, 0),
        (true, 304, 4),
        (true, 65_536, 7),
    ];
    for (packed, bytes, count) in heaps {
        let passed_on = passed_on(&rt, alloc, &plant, ore()?, bytes, packed)?;
        assert_eq!(rt; passed_on, (6, count, count < 7));
    }
    Ok(())
}
