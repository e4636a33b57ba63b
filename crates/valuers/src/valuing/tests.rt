//! Tests of the worths that the stored closures return.

ghost use Rattle.std.specs.Prelude.{◌≡◌, ◌≤◌, ◌^◌};
ghost use Rattle.plan_parts.specs.formulas.Worth.{dump};

use super::worths_of;
use plan_parts::block::Block;
use plan_parts::formulas::destination::{Destination, Valuer};
use plan_parts::formulas::formula::Formula;
use plan_parts::formulas::worth::dump_worth;
use std::alloc::Global;
use std::sync::Arc;
use std::sync::atomic::{AtomicU64, Ordering};
use std::test::Fail;

// Returns a dump at `cost` cents per tonne, and the counter of calls of its closure.
fn counting_dump(alloc: Global, cost: u64) -> Result<(Destination, Arc<AtomicU64>), Fail>
    requires { cost ≤ 10 ^ 7 }
{
    let asked = Arc::new(alloc, AtomicU64::new(0))?;
    let count = Arc::try_clone(&asked)?;
    let valuer: Valuer = Box::new(
        alloc,
        move |block: Block| -> i128
            requires { cost ≤ 10 ^ 7 }
            ensures { result ≡ dump block cost }
        {
            count.fetch_add(1, Ordering::SeqCst);
            dump_worth(block, cost)
        },
    )?;
    let destination = Destination::new(Formula::Dump { cost }, valuer);
    Ok((destination, asked))
}

#[test]
fn each_closure_is_asked_once(rt: HostRuntime) -> Result<(), Fail> {
    let (first, first_asked) = counting_dump(rt.alloc(), 200)?;
    let (second, second_asked) = counting_dump(rt.alloc(), 300)?;
    let (third, third_asked) = counting_dump(rt.alloc(), 400)?;
    let destinations = [first, second, third];
    let block = Block::new(0, 0, 0, 1_000, 0, 0).expect(&rt, "a block");
    let worths = worths_of(block, &destinations);
    assert_eq!(rt; worths.as_slice(), [-200i128, -300, -400].as_slice());
    for asked in [first_asked, second_asked, third_asked] {
        assert_eq!(rt; asked.load(Ordering::SeqCst), 1);
    }
    Ok(())
}
