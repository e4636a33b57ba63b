use super::valued;
use collector::{AddFault, Collector, Missing};
use pit_units::OrMemory;
use rows::{Item, Rows, Valued};
use std::alloc::{AllocError, Global};
use std::process::Abort;
use std::test::Fail;

fn row(file: u8, place: u32) -> Result<Valued, Fail> {
    Ok(valued(file, place, 0, &[7]).ok_or("a row")?)
}

// An addition: a row by its file and place, or an end mark by its file and count.
enum Step {
    Row(u8, u32),
    End(u8, u32),
}

fn item_of(step: &Step) -> Result<Item, Fail> {
    match step {
        Step::Row(file, place) => Ok(Item::Row(row(*file, *place)?)),
        Step::End(file, rows) => {
            let (file, rows) = (*file, *rows);
            Ok(Item::End { file, rows })
        }
    }
}

// Additions, each with its result.
type Steps = &'static [(Step, Result<(), AddFault>)];

// A new collector, its additions and its lists. The contracts of these calls are not needed here, and make proofs long.
fn new_collector(alloc: Global, files: u8) -> Result<Collector, AllocError> {
    Collector::new(alloc, files)
}

fn finish(collector: Collector) -> Result<Vec<Rows>, OrMemory<Missing>> {
    collector.finish()
}

fn add(collector: &mut Collector, item: Item) -> Result<(), AddFault> {
    collector.add(item)
}

// Returns a collector of `files` files after these additions.
fn stepped(rt: &impl Abort, alloc: Global, files: u8, steps: Steps) -> Result<Collector, Fail> {
    let mut collector = new_collector(alloc, files)?;
    for (step, answer) in steps {
        let item = item_of(step)?;
        assert_eq!(rt; add(&mut collector, item), *answer);
    }
    Ok(collector)
}

const WITHOUT_AN_END: Steps = &[
    (Step::Row(0, 0), Ok(())),
    (Step::Row(0, 0), Err(AddFault::Double)),
    (Step::Row(5, 0), Err(AddFault::Stranger)),
    (Step::End(0, 1), Ok(())),
    (Step::Row(0, 1), Err(AddFault::AfterEnd)),
    (Step::End(0, 1), Err(AddFault::SecondEnd)),
];

const WITHOUT_A_ROW: Steps = &[
    (Step::Row(0, 2), Ok(())),
    (Step::End(0, 2), Err(AddFault::BadCount)),
    (Step::End(0, 3), Ok(())),
    (Step::Row(0, 0), Ok(())),
];

const AT_THE_EDGES: Steps = &[
    (Step::Row(0, 1_000_000), Err(AddFault::Stranger)),
    (Step::Row(2, 0), Err(AddFault::Stranger)),
    (Step::End(2, 0), Err(AddFault::Stranger)),
    (Step::End(1, 1_000_001), Err(AddFault::BadCount)),
    (Step::End(1, 1_000_000), Ok(())),
    (Step::End(0, 0), Ok(())),
    (Step::Row(0, 0), Err(AddFault::AfterEnd)),
];

const WHOLE: Steps = &[(Step::Row(0, 0), Ok(())), (Step::End(0, 1), Ok(()))];

// Additions to collectors of two files, and the row that is then missing.
const LACKING: [(Steps, u8, u32); 3] = [
    (WITHOUT_AN_END, 1, 0),
    (WITHOUT_A_ROW, 0, 1),
    (AT_THE_EDGES, 1, 0),
];

#[test]
fn collector_faults(rt: HostRuntime) -> Result<(), Fail> {
    for (steps, file, place) in &LACKING {
        let (file, place) = (*file, *place);
        let collector = stepped(&rt, rt.alloc(), 2, steps)?;
        assert_eq!(rt;
            finish(collector).err(),
            Some(OrMemory::Fault(Missing { file, place }))
        );
    }
    let lists = finish(stepped(&rt, rt.alloc(), 1, WHOLE)?)?;
    assert_eq!(rt; lists.len(), 1);
    let list = lists.get(0).ok_or("list")?;
    assert!(rt; list.as_slice() == [row(0, 0)?].as_slice());
    Ok(())
}
