ghost use Rattle.std.specs.Prelude.{◌≤◌};

use super::{
    Budget, DUMP, EAST, ENOUGH, Fail, Global, MILL, MemFeed, MemSink, ORE, Refusal, Sinks,
    TextName, Threads, Wait, Watched, ZoneFile, answer, begun, budget, destinations_by, feeds_of,
    new_sinks, plan_of, rows_of_run, sink_of,
};
use crate::tests::headers::{cpit, pcpsp, upit};
use crate::tests::watch::{OPEN, Watch};
use pit_compile::refusal::RowAt;
use pit_compile::settings::SettingsFault;
use std::sync::atomic::Ordering;
use zone_csv::row_fault::{Column, RowFault, RowFaultKind};

const INVALID: ZoneFile = ("0,0,0,1,?\n", 0);

// Valid files, one of which fails at a pull: the first pull gives all bytes, the second the end.
const AT_1: &[ZoneFile] = &[ORE, ("20,0,0,1,0\n", 1)];

const AT_2: &[ZoneFile] = &[ORE, ("20,0,0,1,0\n", 2)];

const AT_3: &[ZoneFile] = &[ORE, ("20,0,0,1,0\n", 3)];

const THREE: &[ZoneFile] = &[ORE, EAST, ("20,0,0,1,0\n", 0)];

const FAULT_OF_3: &[ZoneFile] = &[INVALID, ORE, EAST];

const FAULT_FIRST: &[ZoneFile] = &[INVALID, ("20,0,0,1,0\n", 1)];

const FAULT_LAST: &[ZoneFile] = &[("20,0,0,1,0\n", 1), INVALID];

const FAULT: Refusal = Refusal::Row {
    file: 0,
    fault: RowFault {
        row: 2,
        column: Column::Grade,
        kind: RowFaultKind::Number,
    },
};

const REPEATED: Refusal = Refusal::Same {
    first: RowAt { file: 0, row: 2 },
    again: RowAt { file: 1, row: 2 },
};

const FAILED_0: Refusal = Refusal::FeedFailed { file: 0 };

const FAILED_1: Refusal = Refusal::FeedFailed { file: 1 };

const FILES: Refusal = Refusal::Settings(SettingsFault::Files);

const VALUERS: Refusal = Refusal::Settings(SettingsFault::Valuers);

const CAPACITY: Refusal = Refusal::Settings(SettingsFault::Capacity);

const DESTINATIONS: Refusal = Refusal::Settings(SettingsFault::Destinations);

const NO_THREAD: Refusal = Refusal::NoThread;

// A run: the number of zones in the plan of a mill, and the plan with its destinations; the files, and the number of times that
// each is used; the numbers of valuers, of places in the lane and of thread starts; and then the error, if any, and the readers
// that are started.
type Run = (
    usize,
    &'static [u8],
    &'static [ZoneFile],
    usize,
    usize,
    usize,
    u32,
    Option<Refusal>,
    u64,
);

// Errors of settings come first, the error of destinations last among them.
const SETTINGS: [Run; 10] = [
    (1, MILL, &[ORE], 1, 1, 1, ENOUGH, None, 1),
    (1, MILL, &[ORE], 1, 64, 4096, ENOUGH, None, 1),
    (2, MILL, &[ORE], 1, 1, 1, ENOUGH, Some(FILES), 0),
    (1, MILL, &[ORE], 2, 1, 1, ENOUGH, Some(FILES), 0),
    (1, DUMP, &[ORE], 0, 0, 0, 0, Some(FILES), 0),
    (1, DUMP, &[ORE], 1, 0, 0, 0, Some(VALUERS), 0),
    (1, MILL, &[ORE], 1, 65, 1, ENOUGH, Some(VALUERS), 0),
    (1, DUMP, &[INVALID], 1, 1, 0, 0, Some(CAPACITY), 0),
    (1, MILL, &[ORE], 1, 1, 4097, ENOUGH, Some(CAPACITY), 0),
    (1, DUMP, &[INVALID], 1, 1, 1, 0, Some(DESTINATIONS), 0),
];

// A refused start is reported before an invalid file.
const STARTS: [Run; 9] = [
    (3, MILL, THREE, 1, 2, 1, 0, Some(NO_THREAD), 0),
    (3, MILL, THREE, 1, 2, 1, 1, Some(NO_THREAD), 0),
    (3, MILL, THREE, 1, 2, 1, 2, Some(NO_THREAD), 0),
    (3, MILL, THREE, 1, 2, 1, 3, Some(NO_THREAD), 1),
    (3, MILL, THREE, 1, 2, 1, 4, Some(NO_THREAD), 11),
    (3, MILL, THREE, 1, 2, 1, 5, None, 111),
    (3, MILL, FAULT_OF_3, 1, 2, 1, 3, Some(NO_THREAD), 1),
    // 64 files, with one start too few, and with enough.
    (64, MILL, &[ORE], 64, 64, 1, 127, Some(NO_THREAD), 60_111),
    (64, MILL, &[ORE], 64, 64, 1, 128, Some(REPEATED), 61_111),
];

// The first file with an error decides.
const FEEDS: [Run; 5] = [
    (2, MILL, AT_1, 1, 2, 1, ENOUGH, Some(FAILED_1), 11),
    (2, MILL, AT_2, 1, 2, 1, ENOUGH, Some(FAILED_1), 11),
    (2, MILL, AT_3, 1, 2, 1, ENOUGH, None, 11),
    (2, MILL, FAULT_LAST, 1, 2, 1, ENOUGH, Some(FAILED_0), 11),
    (2, MILL, FAULT_FIRST, 1, 2, 1, ENOUGH, Some(FAULT), 11),
];

// Returns the result of a run, and whether no sink was begun.
fn untouched_answer<R: Threads + Wait + Sync>(
    rt: &R,
    alloc: Global,
    zones: usize,
    valued_by: &[u8],
    feeds: Vec<MemFeed>,
    budget: Budget,
    watch: &Watched,
) -> Result<(Result<u64, Refusal>, bool), Fail> {
    let mut sinks = new_sinks(alloc);
    let answered = answer(
        rt, alloc, zones, valued_by, feeds, budget, watch, &mut sinks,
    )?;
    Ok((answered, begun(&sinks) == [false; 5]))
}

// Returns whether a run has this result, began no sink if it failed, and started these readers.
fn is_answered<R: Threads + Wait + Sync>(rt: &R, alloc: Global, run: &Run) -> Result<bool, Fail> {
    let (zones, plan, files, times, valuers, capacity, starts, refusal, readers) = *run;
    let watch = Watch::new(alloc, OPEN)?;
    let feeds = feeds_of(alloc, files, times)?;
    let budget = budget(valuers, capacity, starts);
    let (answered, untouched) = untouched_answer(rt, alloc, zones, plan, feeds, budget, &watch)?;
    let wanted = match refusal {
        Some(refusal) => Err(refusal),
        None => Ok(files.len() as u64),
    };
    Ok(
        answered == wanted
            && untouched == wanted.is_err()
            && watch.readers.load(Ordering::SeqCst) == readers,
    )
}

#[test]
fn settings_and_words(rt: HostRuntime) -> Result<(), Fail> {
    for (place, run) in SETTINGS.iter().enumerate() {
        assert!(rt; is_answered(&rt, rt.alloc(), run)?, "{place}");
    }
    Ok(())
}

#[test]
fn refused_starts(rt: HostRuntime) -> Result<(), Fail> {
    for (place, run) in STARTS.iter().enumerate() {
        assert!(rt; is_answered(&rt, rt.alloc(), run)?, "{place}");
    }
    Ok(())
}

#[test]
fn failing_devices(rt: HostRuntime) -> Result<(), Fail> {
    for (place, run) in FEEDS.iter().enumerate() {
        assert!(rt; is_answered(&rt, rt.alloc(), run)?, "{place}");
    }
    Ok(())
}

// A plan with a mill and a dump, a resource and its limits; its zone file, in which one block has no tonnage; and the files of its
// instance.
const LIMITED_PLAN: &[u8] =
    b"name,one\ngrid,0,0,0,10,10,10\nmill,mill,900,600,1500\ndump,dump,200\nperiods,2\nrate,0.1\nresource,plant,mill\nlimit,plant,1,I,0,900\nlimit,plant,0,L,500.5\n";

const LIMITED_ZONE: &[u8] = b"x,y,z,tonnes,grade\n0,0,0,1000,5000\n10,0,0,0,7\n";

const LIMITED: [&str; 5] = [
    "0 0 0 0 1000 5000 0\n1 1 0 0 0 7 0\n",
    "0 0\n1 0\n",
    upit! { name: "one", blocks: 2, values: ["0 12000", "1 0"] },
    pcpsp! {
        name: "one", blocks: 2, periods: 2, destinations: 2, resources: 1, rate: 0.1,
        values: ["0 12000 -2000", "1 0 0"],
        coefs: ["0 0 0 1000"],
        limits: ["0 0 L 500.5", "0 1 I 0 900"],
    },
    cpit! {
        name: "one", blocks: 2, periods: 2, resources: 1, rate: 0.1,
        values: ["0 12000", "1 0"],
        coefs: ["0 0 1000"],
        limits: ["0 0 L 500.5", "0 1 I 0 900"],
    },
];

// Returns sinks that take at most `step` bytes a put.
fn short_sinks(alloc: Global, step: usize) -> Sinks<MemSink>
    requires { 1 ≤ step }
{
    Sinks {
        blocks: MemSink::short(alloc, step),
        prec: MemSink::short(alloc, step),
        upit: MemSink::short(alloc, step),
        pcpsp: MemSink::short(alloc, step),
        cpit: MemSink::short(alloc, step),
    }
}

// Returns a feed of the zone file that gives at most `step` bytes a pull.
fn cut_feed(alloc: Global, step: usize) -> Result<Vec<MemFeed>, Fail>
    requires { 1 ≤ step }
{
    let feed = MemFeed::cutting(LIMITED_ZONE.to_vec(alloc)?, step);
    Ok(Vec::from_array(alloc, [feed])?)
}

// Returns the result of a run on the zone file.
fn run_limits<R: Threads + Wait + Sync>(
    rt: &R,
    alloc: Global,
    feeds: Vec<MemFeed>,
    sinks: &mut Sinks<MemSink>,
) -> Result<Result<u64, Refusal>, Fail> {
    let watch = Watch::new(alloc, OPEN)?;
    let destinations = destinations_by(alloc, LIMITED_PLAN, &watch)?;
    let plan = plan_of(alloc, LIMITED_PLAN, 1)?;
    let (destinations, budget) = (destinations.as_slice(), budget(4, 64, ENOUGH));
    Ok(rows_of_run(rt, alloc, feeds, &plan, destinations, budget, &watch, sinks))
}

fn are_limited(sinks: &Sinks<MemSink>) -> bool {
    for (name, text) in TextName::all().iter().zip(&LIMITED) {
        if sink_of(sinks, *name).bytes() != text.as_bytes() {
            return false;
        }
    }
    true
}

// The files do not depend on the number of bytes that a feed gives, or a sink takes, at a time.
#[test]
fn limits_and_coefficients(rt: HostRuntime) -> Result<(), Fail> {
    for step in [1, 2, 7, 100_000] {
        let feeds = cut_feed(rt.alloc(), step)?;
        let mut sinks = short_sinks(rt.alloc(), step);
        let answered = run_limits(&rt, rt.alloc(), feeds, &mut sinks)?;
        assert!(rt; answered == Ok(2), "{step} bytes at once");
        assert!(rt; are_limited(&sinks), "{step} bytes at once");
    }
    Ok(())
}
