//! Runs in which a sink fails at one of its calls.

use super::{
    ENOUGH, Fail, Global, MILL, MemSink, Refusal, Sinks, TextName, Threads, Wait, answer, begun,
    budget, feeds_of, new_sinks, sink_of,
};
use crate::tests::watch::{OPEN, Watch};

// A sink, the number of its call that fails, the sinks that are begun then, and the number of complete files. Each file is begun
// and then put in one call, so the third call does not occur.
const SINKS: [(TextName, u64, [bool; 5], usize); 15] = [
    (TextName::Blocks, 1, [false, false, false, false, false], 0),
    (TextName::Blocks, 2, [true, false, false, false, false], 0),
    (TextName::Blocks, 3, [true, true, true, true, true], 5),
    (TextName::Prec, 1, [true, false, false, false, false], 1),
    (TextName::Prec, 2, [true, true, false, false, false], 1),
    (TextName::Prec, 3, [true, true, true, true, true], 5),
    (TextName::Upit, 1, [true, true, false, false, false], 2),
    (TextName::Upit, 2, [true, true, true, false, false], 2),
    (TextName::Upit, 3, [true, true, true, true, true], 5),
    (TextName::Pcpsp, 1, [true, true, true, false, false], 3),
    (TextName::Pcpsp, 2, [true, true, true, true, false], 3),
    (TextName::Pcpsp, 3, [true, true, true, true, true], 5),
    (TextName::Cpit, 1, [true, true, true, true, false], 4),
    (TextName::Cpit, 2, [true, true, true, true, true], 4),
    (TextName::Cpit, 3, [true, true, true, true, true], 5),
];

// Returns the result of a run with one valuer on two rows.
fn run_into<R: Threads + Wait + Sync>(
    rt: &R,
    alloc: Global,
    sinks: &mut Sinks<MemSink>,
) -> Result<Result<u64, Refusal>, Fail> {
    let watch = Watch::new(alloc, OPEN)?;
    let feeds = feeds_of(alloc, &[("0,0,0,1,0\n10,0,0,1,0\n", 0)], 1)?;
    answer(
        rt,
        alloc,
        1,
        MILL,
        feeds,
        budget(1, 1, ENOUGH),
        &watch,
        sinks,
    )
}

// Returns whether the first `texts` files equal the other sinks' files, and the remaining ones are empty.
fn hold_texts(sinks: &Sinks<MemSink>, others: &Sinks<MemSink>, texts: usize) -> bool {
    for (place, name) in TextName::all().iter().enumerate() {
        let bytes = sink_of(sinks, *name).bytes();
        let is_right = if place < texts {
            bytes == sink_of(others, *name).bytes()
        } else {
            bytes.is_empty()
        };
        if !is_right {
            return false;
        }
    }
    true
}

#[test]
fn failing_devices(rt: HostRuntime) -> Result<(), Fail> {
    let mut whole = new_sinks(rt.alloc());
    assert!(rt; run_into(&rt, rt.alloc(), &mut whole)? == Ok(2));
    for (which, nth, expected, texts) in SINKS {
        let mut sinks = new_sinks(rt.alloc());
        *sinks.of_mut(which) = MemSink::failing(rt.alloc(), nth.max(1));
        let answered = run_into(&rt, rt.alloc(), &mut sinks)?;
        let answer = if texts == 5 {
            Ok(2)
        } else {
            Err(Refusal::SinkFailed { which })
        };
        assert!(rt; answered == answer, "{which} {nth}");
        assert!(rt; begun(&sinks) == expected, "{which} {nth}");
        assert!(rt; hold_texts(&sinks, &whole, texts), "{which} {nth}");
    }
    Ok(())
}
