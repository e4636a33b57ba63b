//! Runs on plans and zone files in memory.

use crate::tests::models::destinations_of;
use crate::tests::watch::Watched;
use devices::feeds::feed::Feed;
use devices::feeds::mem_feed::MemFeed;
use minelib_text::mem_sink::MemSink;
use minelib_text::text_name::TextName;
use pit_compile::refusal::Refusal;
use pit_compile::run_limited;
use pit_compile::settings::{Budget, Settings};
use pit_compile::sinks::Sinks;
use pit_model::destination::Destination;
use pit_model::plan::Plan;
use pit_model::read_plan;
use std::alloc::Global;
use std::sync::Wait;
use std::test::Fail;
use std::thread::Threads;

mod failing_sinks;
mod random_runs;
mod refused_runs;
mod schedules;

// The header of each zone file.
const HEADER: &[u8] = b"x,y,z,tonnes,grade\n";

// The number of starts that `run` allows.
const ENOUGH: u32 = 128;

// Plans without their zones.
const MILL: &[u8] = b"name,one\ngrid,0,0,0,10,10,10\nmill,mill,900,600,1500\nperiods,1\nrate,0.1\n";

const DUMP: &[u8] = b"name,one\ngrid,0,0,0,10,10,10\ndump,dump,200\nperiods,1\nrate,0.1\n";

// Returns the text of a plan with `zones` zones of one slope.
fn plan_text(alloc: Global, plan: &[u8], zones: usize) -> Result<Vec<u8>, Fail> {
    let mut text = plan.to_vec(alloc)?;
    for _zone in 0..zones {
        text.extend_from_slice(b"zone,1,1,1\n")?;
    }
    Ok(text)
}

fn plan_of(alloc: Global, plan: &[u8], zones: usize) -> Result<Plan, Fail> {
    let text = plan_text(alloc, plan, zones)?;
    Ok(read_plan(alloc, text.as_slice())?)
}

// Returns the destinations of a plan.
fn destinations_by(alloc: Global, plan: &[u8], watch: &Watched) -> Result<Vec<Destination>, Fail> {
    let plan = plan_of(alloc, plan, 1)?;
    destinations_of(alloc, &plan, watch)
}

// Returns the sink of a text.
fn sink_of(sinks: &Sinks<MemSink>, name: TextName) -> &MemSink {
    match name {
        TextName::Blocks => &sinks.blocks,
        TextName::Prec => &sinks.prec,
        TextName::Upit => &sinks.upit,
        TextName::Pcpsp => &sinks.pcpsp,
        TextName::Cpit => &sinks.cpit,
    }
}

// Returns sinks in memory that were not begun.
fn new_sinks(alloc: Global) -> Sinks<MemSink> {
    Sinks {
        blocks: MemSink::new(alloc),
        prec: MemSink::new(alloc),
        upit: MemSink::new(alloc),
        pcpsp: MemSink::new(alloc),
        cpit: MemSink::new(alloc),
    }
}

// Returns which sinks were begun, in the order of writing.
fn begun(sinks: &Sinks<MemSink>) -> [bool; 5] {
    [
        sinks.blocks.begun(),
        sinks.prec.begun(),
        sinks.upit.begun(),
        sinks.pcpsp.begun(),
        sinks.cpit.begun(),
    ]
}

// A zone file: its rows, and the pull that fails, or 0.
type ZoneFile = (&'static str, u64);

const ORE: ZoneFile = ("0,0,0,1,0\n", 0);

const EAST: ZoneFile = ("10,0,0,1,0\n", 0);

fn feed_of(alloc: Global, rows: &str, failing: u64) -> Result<MemFeed, Fail> {
    let mut text = HEADER.to_vec(alloc)?;
    text.extend_from_slice(rows.as_bytes())?;
    Ok(if failing == 0 {
        MemFeed::new(text)
    } else {
        MemFeed::failing(text, failing)
    })
}

// Returns a feed for each of these files, `times` times over.
fn feeds_of(alloc: Global, files: &[ZoneFile], times: usize) -> Result<Vec<MemFeed>, Fail> {
    let mut feeds = Vec::new(alloc);
    for _time in 0..times {
        for (rows, failing) in files {
            feeds.push(feed_of(alloc, rows, *failing)?)?;
        }
    }
    Ok(feeds)
}

// Returns the result of a run: its number of rows or its error.
fn rows_of_run<R: Threads + Wait + Sync, F: Feed + Send + Drop>(
    rt: &R,
    alloc: Global,
    feeds: Vec<F>,
    plan: &Plan,
    destinations: &[Destination],
    budget: Budget,
    watch: &Watched,
    sinks: &mut Sinks<MemSink>,
) -> Result<u64, Refusal> {
    let gathered = run_limited(
        rt,
        alloc,
        feeds,
        plan,
        destinations,
        budget.settings,
        budget.starts,
        &**watch,
        sinks,
    )?;
    Ok(gathered.rows())
}

// Returns the result of a run on the plan of a mill with `zones` zones, with the destinations of the plan `valued_by`.
fn answer<R: Threads + Wait + Sync, F: Feed + Send + Drop>(
    rt: &R,
    alloc: Global,
    zones: usize,
    valued_by: &[u8],
    feeds: Vec<F>,
    budget: Budget,
    watch: &Watched,
    sinks: &mut Sinks<MemSink>,
) -> Result<Result<u64, Refusal>, Fail> {
    let destinations = destinations_by(alloc, valued_by, watch)?;
    let destinations = destinations.as_slice();
    let plan = plan_of(alloc, MILL, zones)?;
    Ok(rows_of_run(rt, alloc, feeds, &plan, destinations, budget, watch, sinks))
}

fn budget(valuers: usize, capacity: usize, starts: u32) -> Budget {
    let settings = Settings { valuers, capacity };
    Budget { settings, starts }
}
