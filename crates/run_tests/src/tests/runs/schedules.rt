use super::{
    EAST, ENOUGH, Fail, Feed, Global, MILL, ORE, Refusal, Threads, Wait, Watched, answer, budget,
    feeds_of, new_sinks,
};
use crate::tests::watch::{Holds, Looking, OPEN, Watch};
use std::sync::atomic::Ordering;

// Returns the result of a run, without its files.
fn watched<R: Threads + Wait + Sync, F: Feed + Send + Drop>(
    rt: &R,
    alloc: Global,
    feeds: Vec<F>,
    valuers: usize,
    watch: &Watched,
) -> Result<Result<u64, Refusal>, Fail> {
    let (zones, budget) = (feeds.len(), budget(valuers, 64, ENOUGH));
    let mut sinks = new_sinks(alloc);
    answer(rt, alloc, zones, MILL, feeds, budget, watch, &mut sinks)
}

// The digit 1 for each of eight.
const EACH_ONCE: u64 = 0x1111_1111;

const EIGHT_ROWS: &str =
    "0,0,0,1,0\n10,0,0,1,0\n20,0,0,1,0\n30,0,0,1,0\n40,0,0,1,0\n50,0,0,1,0\n60,0,0,1,0\n70,0,0,1,0\n";

// What eight rows wait for: that the gate was called for all of them, or that the worths of all were requested.
const EIGHT: [Holds; 2] = [
    Holds {
        row: EACH_ONCE,
        reader: 0,
        value: 0,
        turns: 0,
    },
    Holds {
        row: 0,
        reader: 0,
        value: 8,
        turns: 0,
    },
];

// Eight valuers have a row at the same time, and call a stored closure for its worth at the same time, once each.
#[test]
fn eight_rows_at_once(rt: HostRuntime) -> Result<(), Fail> {
    for holds in EIGHT {
        let watch = Watch::new(rt.alloc(), holds)?;
        let feeds = feeds_of(rt.alloc(), &[(EIGHT_ROWS, 0)], 1)?;
        assert!(rt; watched(&rt, rt.alloc(), feeds, 8, &watch)? == Ok(8));
        assert_eq!(rt; watch.rows.load(Ordering::SeqCst), EACH_ONCE);
        assert_eq!(rt; watch.valuers.load(Ordering::SeqCst), EACH_ONCE);
        assert_eq!(rt; watch.values.load(Ordering::SeqCst), 8);
        assert_eq!(rt; watch.early.load(Ordering::SeqCst), 0);
        assert_eq!(rt; watch.late.load(Ordering::SeqCst), 0);
    }
    Ok(())
}

// The reader of file 0 waits for a row of file 1.
#[test]
fn reader_held_by_a_row(rt: HostRuntime) -> Result<(), Fail> {
    let holds = Holds {
        row: 0,
        reader: 0x1_0000_0000,
        value: 0,
        turns: 0,
    };
    let watch = Watch::new(rt.alloc(), holds)?;
    let feeds = feeds_of(rt.alloc(), &[ORE, EAST], 1)?;
    assert!(rt; watched(&rt, rt.alloc(), feeds, 1, &watch)? == Ok(2));
    assert_eq!(rt; watch.rows.load(Ordering::SeqCst), 0x1_0000_0001);
    assert_eq!(rt; watch.late.load(Ordering::SeqCst), 0);
    Ok(())
}

// The gate is called for a reader before its first pull.
#[test]
fn gate_before_reading(rt: HostRuntime) -> Result<(), Fail> {
    let watch = Watch::new(rt.alloc(), OPEN)?;
    let feeds = Vec::from_array(rt.alloc(), [Looking::new(&watch)?])?;
    assert!(rt; watched(&rt, rt.alloc(), feeds, 1, &watch)?.is_err());
    assert!(rt; 0 < watch.pulls.load(Ordering::SeqCst));
    assert_eq!(rt; watch.early.load(Ordering::SeqCst), 0);
    Ok(())
}
