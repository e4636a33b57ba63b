//! Runs of random models, with feeds that cut and fail, gates that delay, sinks that take few bytes and fail, and starts that are
//! refused. Each result and each file is compared with what is known of the model.
//!
//! A test makes a few runs. `tools/random-runs` makes thousands, by the environment variables `RANDOM_RUNS` and `RANDOM_SEED`.

ghost use Rattle.std.specs.Prelude.{◌<◌, ◌≤◌};

use super::{
    ENOUGH, Fail, Global, HEADER, MILL, MemFeed, MemSink, Refusal, Sinks, TextName, Threads, Wait,
    answer, budget, sink_of,
};
use crate::tests::headers::{cpit, pcpsp, upit};
use crate::tests::watch::{Holds, Watch};
use pit_compile::refusal::RowAt;
use std::env;
use std::process::Abort;
use zone_csv::row_fault::{Column, RowFault, RowFaultKind};

// Numbers by a linear congruence.
#[derive(Drop)]
struct Dice {
    state: u64,
}

impl Dice {
    // Returns a number below `sides`.
    fn roll(&mut self, sides: u64) -> u64
        requires { 1 ≤ sides }
        ensures { result < sides }
    {
        self.state = self
            .state
            .wrapping_mul(6_364_136_223_846_793_005)
            .wrapping_add(1_442_695_040_888_963_407);
        (self.state >> 33) % sides
    }

    // Returns `true` once in `sides` times.
    fn once_in(&mut self, sides: u64) -> bool
        requires { 1 ≤ sides }
    {
        self.roll(sides) == 0
    }
}

// A zone file with its errors: whether its last row has no grade, and the pull that fails, or 0.
#[derive(Clone, Copy, Drop)]
struct Spoiled {
    file: u8,
    is_invalid: bool,
    failing: u64,
}

// A model of blocks along x, each a tonne of waste that costs 15 hundreds of cents in the mill.
#[derive(Drop)]
struct Model {
    // The file of each block, in order of x.
    file_of: Vec<u8>,
    // The file with the block at 0 again at its end.
    again: Option<u8>,
    files: Vec<Spoiled>,
}

fn random_places(alloc: Global, dice: &mut Dice, files: u8) -> Result<Vec<u8>, Fail>
    requires { 1 ≤ files }
{
    let mut file_of = Vec::new(alloc);
    for _block in 0..dice.roll(60) {
        file_of.push(dice.roll(u64::from(files)) as u8)?;
    }
    Ok(file_of)
}

fn random_files(alloc: Global, dice: &mut Dice, files: u8) -> Result<Vec<Spoiled>, Fail> {
    let mut spoiled = Vec::new(alloc);
    for file in 0..files {
        let is_invalid = dice.once_in(16);
        let failing = if dice.once_in(16) {
            1 + dice.roll(3)
        } else {
            0
        };
        spoiled.push(Spoiled {
            file,
            is_invalid,
            failing,
        })?;
    }
    Ok(spoiled)
}

fn random_model(alloc: Global, dice: &mut Dice, files: u8) -> Result<Model, Fail>
    requires { 1 ≤ files }
{
    let file_of = random_places(alloc, dice, files)?;
    let again = if !file_of.is_empty() && dice.once_in(8) {
        Some(dice.roll(u64::from(files)) as u8)
    } else {
        None
    };
    Ok(Model {
        file_of,
        again,
        files: random_files(alloc, dice, files)?,
    })
}

// Returns the number of the last valid row of a file; the header is row 1.
fn last_row(model: &Model, file: u8) -> u32 {
    let mut row = 1u32;
    for other in &model.file_of {
        if *other == file {
            row = row.saturating_add(1);
        }
    }
    if model.again == Some(file) {
        row.saturating_add(1)
    } else {
        row
    }
}

fn zone_text(alloc: Global, model: &Model, zone: Spoiled) -> Result<Vec<u8>, Fail> {
    let mut text = HEADER.to_vec(alloc)?;
    for (x, file) in model.file_of.iter().enumerate() {
        if *file == zone.file {
            let row = format!(in alloc; "{x}0,0,0,1,0\n")?;
            text.extend_from_slice(row.as_bytes())?;
        }
    }
    if model.again == Some(zone.file) {
        text.extend_from_slice(b"0,0,0,1,0\n")?;
    }
    if zone.is_invalid {
        text.extend_from_slice(b"0,0,0,1,?\n")?;
    }
    Ok(text)
}

// Returns a feed for each file. A failing feed gives all bytes at its first pull.
fn feeds_of_model(alloc: Global, model: &Model, dice: &mut Dice) -> Result<Vec<MemFeed>, Fail> {
    let mut feeds = Vec::new(alloc);
    for spoiled in &model.files {
        let text = zone_text(alloc, model, *spoiled)?;
        feeds.push(if spoiled.failing == 0 {
            MemFeed::cutting(text, 1 + dice.roll(50) as usize)
        } else {
            MemFeed::failing(text, spoiled.failing)
        })?;
    }
    Ok(feeds)
}

// Returns the error of the first file that is not read to its end. The first pull gives all bytes, the second the end.
fn fault_in(model: &Model) -> Option<Refusal> {
    for spoiled in &model.files {
        let file = spoiled.file;
        if spoiled.failing == 1 || spoiled.failing == 2 {
            return Some(Refusal::FeedFailed { file });
        }
        if spoiled.is_invalid {
            let fault = RowFault {
                row: last_row(model, file).saturating_add(1),
                column: Column::Grade,
                kind: RowFaultKind::Number,
            };
            return Some(Refusal::Row { file, fault });
        }
    }
    None
}

// Returns the error for a repeated block. The block at 0 is the first of its file. The row that is first in the order of the files
// is the repeated one.
fn same_in(model: &Model) -> Option<Refusal> {
    let file = model.again?;
    let first = RowAt {
        file: *model.file_of.first()?,
        row: 2,
    };
    let again = RowAt {
        file,
        row: last_row(model, file),
    };
    Some(if file < first.file {
        Refusal::Same {
            first: again,
            again: first,
        }
    } else {
        Refusal::Same { first, again }
    })
}

// The sink that fails, the number of its failing call, and the maximum number of bytes that it takes of a put.
#[derive(Clone, Copy, Drop)]
struct Failing {
    which: TextName,
    nth: u64,
    step: usize,
}

// The settings of a run.
#[derive(Clone, Copy, Drop)]
struct Making {
    valuers: u64,
    capacity: u64,
    starts: u32,
    turns: u64,
    failing: Option<Failing>,
}

fn random_failing(dice: &mut Dice) -> Option<Failing> {
    if !dice.once_in(4) {
        return None;
    }
    let which = *TextName::all().get(dice.roll(5) as usize)?;
    let nth = 1 + dice.roll(5);
    let step = if dice.once_in(2) {
        1 + dice.roll(90) as usize
    } else {
        1_000_000
    };
    Some(Failing { which, nth, step })
}

fn random_making(dice: &mut Dice) -> Making {
    Making {
        valuers: 1 + dice.roll(8),
        capacity: 1 + dice.roll(20),
        starts: if dice.once_in(10) {
            dice.roll(14) as u32
        } else {
            ENOUGH
        },
        turns: dice.roll(300),
        failing: random_failing(dice),
    }
}

// Returns a sink that takes few bytes at a time, or the failing one.
fn random_sink(
    alloc: Global,
    dice: &mut Dice,
    failing: Option<Failing>,
    name: TextName,
) -> MemSink {
    match failing {
        Some(Failing { which, nth, step }) if which == name => {
            MemSink::fresh(alloc, step.max(1), nth)
        }
        _ => MemSink::short(alloc, 1 + dice.roll(90) as usize),
    }
}

fn random_sinks(alloc: Global, dice: &mut Dice, failing: Option<Failing>) -> Sinks<MemSink> {
    Sinks {
        blocks: random_sink(alloc, dice, failing, TextName::Blocks),
        prec: random_sink(alloc, dice, failing, TextName::Prec),
        upit: random_sink(alloc, dice, failing, TextName::Upit),
        pcpsp: random_sink(alloc, dice, failing, TextName::Pcpsp),
        cpit: random_sink(alloc, dice, failing, TextName::Cpit),
    }
}

// Returns a model file with `?` for the number of blocks, and for their lines. Other files have only such lines.
fn frame_of(name: TextName) -> &'static str {
    match name {
        TextName::Blocks | TextName::Prec => "",
        TextName::Upit => upit! { name: "one", blocks: "?", values: ["?"] },
        TextName::Pcpsp => pcpsp! {
            name: "one", blocks: "?", periods: 1, destinations: 1, resources: 0, rate: 0.1,
            values: ["?"],
            coefs: [],
            limits: [],
        },
        TextName::Cpit => cpit! {
            name: "one", blocks: "?", periods: 1, resources: 0, rate: 0.1,
            values: ["?"],
            coefs: [],
            limits: [],
        },
    }
}

// Returns the line of a block in a file.
fn line_of(alloc: Global, name: TextName, x: usize, file: u8) -> Result<String, Fail> {
    Ok(match name {
        TextName::Blocks => format!(in alloc; "{x} {x} 0 0 1 0 {file}\n")?,
        TextName::Prec => format!(in alloc; "{x} 0\n")?,
        _ => format!(in alloc; "{x} -15\n")?,
    })
}

// Returns a file of a model's instance.
fn text_of(alloc: Global, model: &Model, name: TextName) -> Result<String, Fail> {
    let mut parts = frame_of(name).split("?\n");
    let mut text = String::from_str(alloc, parts.next().unwrap_or(""))?;
    if let Some(keys) = parts.next() {
        let count = format!(in alloc; "{}\n{keys}", model.file_of.len())?;
        text.push_str(count.as_str())?;
    }
    for (x, file) in model.file_of.iter().enumerate() {
        let line = line_of(alloc, name, x, *file)?;
        text.push_str(line.as_str())?;
    }
    text.push_str(parts.next().unwrap_or(""))?;
    Ok(text)
}

// Returns the error of the sink that stops the run, if one does. A file is begun, and then put in one call if it is not empty;
// bytes that were not taken are put again.
fn stopped_by(
    alloc: Global,
    model: &Model,
    failing: Option<Failing>,
) -> Result<Option<Refusal>, Fail> {
    let Some(Failing { which, nth, step }) = failing else {
        return Ok(None);
    };
    let text = text_of(alloc, model, which)?;
    let step = step.max(1);
    let puts = text.as_bytes().len().saturating_add(step - 1) / step;
    Ok(if nth <= (puts as u64).saturating_add(1) {
        Some(Refusal::SinkFailed { which })
    } else {
        None
    })
}

// Returns the error of the run, if it fails.
fn refusal_of(alloc: Global, model: &Model, making: &Making) -> Result<Option<Refusal>, Fail> {
    if u64::from(making.starts) < making.valuers.saturating_add(model.files.len() as u64) {
        return Ok(Some(Refusal::NoThread));
    }
    match fault_in(model).or(same_in(model)) {
        Some(refusal) => Ok(Some(refusal)),
        None => stopped_by(alloc, model, making.failing),
    }
}

// Returns the number of complete files after this error, and the number of bytes that the failing sink took, if one failed.
fn state_after(refusal: Option<Refusal>, failing: Option<Failing>) -> (usize, Option<usize>) {
    match (refusal, failing) {
        (None, _) => (5, None),
        (Some(Refusal::SinkFailed { which }), Some(Failing { nth, step, .. })) => {
            let prefix = (nth.saturating_sub(2) as usize).saturating_mul(step);
            (place_of(which), Some(prefix))
        }
        _ => (0, None),
    }
}

// Returns the place of a file in the order of writing.
fn place_of(which: TextName) -> usize {
    match which {
        TextName::Blocks => 0,
        TextName::Prec => 1,
        TextName::Upit => 2,
        TextName::Pcpsp => 3,
        TextName::Cpit => 4,
    }
}

// Returns whether a sink is in its expected state: complete, cut off by its failure, or not begun.
fn is_as_expected(
    sink: &MemSink,
    text: &[u8],
    place: usize,
    whole: usize,
    prefix: Option<usize>,
) -> bool {
    if place < whole {
        return sink.begun() && sink.bytes() == text;
    }
    match prefix {
        Some(prefix) if place == whole => {
            let (taken, _) = text.split_at(prefix.min(text.len()));
            sink.bytes() == taken
        }
        _ => !sink.begun() && sink.bytes().is_empty(),
    }
}

fn are_as_expected(
    alloc: Global,
    model: &Model,
    sinks: &Sinks<MemSink>,
    whole: usize,
    prefix: Option<usize>,
) -> Result<bool, Fail> {
    for name in TextName::all() {
        let text = text_of(alloc, model, name)?;
        let sink = sink_of(sinks, name);
        if !is_as_expected(sink, text.as_bytes(), place_of(name), whole, prefix) {
            return Ok(false);
        }
    }
    Ok(true)
}

// Returns the result of a run of a model.
fn run_of<R: Threads + Wait + Sync>(
    rt: &R,
    alloc: Global,
    model: &Model,
    making: &Making,
    feeds: Vec<MemFeed>,
    sinks: &mut Sinks<MemSink>,
) -> Result<Result<u64, Refusal>, Fail> {
    let holds = Holds {
        row: 0,
        reader: 0,
        value: 0,
        turns: making.turns,
    };
    let watch = Watch::new(alloc, holds)?;
    let (valuers, capacity) = (making.valuers as usize, making.capacity as usize);
    let budget = budget(valuers, capacity, making.starts);
    answer(
        rt,
        alloc,
        model.files.len(),
        MILL,
        feeds,
        budget,
        &watch,
        sinks,
    )
}

// Makes one run, and tests its result and its sinks by what is known of its model.
fn random_run<R: Threads + Wait + Sync + Abort>(
    rt: &R,
    alloc: Global,
    seed: u64,
) -> Result<(), Fail> {
    let mut dice = Dice { state: seed };
    let making = random_making(&mut dice);
    let files = 1 + dice.roll(5) as u8;
    let model = random_model(alloc, &mut dice, files)?;
    let mut sinks = random_sinks(alloc, &mut dice, making.failing);
    let feeds = feeds_of_model(alloc, &model, &mut dice)?;
    let answered = run_of(rt, alloc, &model, &making, feeds, &mut sinks)?;
    let refusal = refusal_of(alloc, &model, &making)?;
    let expected = match refusal {
        Some(refusal) => Err(refusal),
        None => Ok(model.file_of.len() as u64),
    };
    assert!(rt; answered == expected, "seed {seed}");
    let (whole, prefix) = state_after(refusal, making.failing);
    assert!(rt;
        are_as_expected(alloc, &model, &sinks, whole, prefix)?,
        "seed {seed}"
    );
    Ok(())
}

// Returns the number that an environment variable states, or `otherwise`.
fn number_of(rt: &HostRuntime, name: &str, otherwise: u64) -> u64 {
    match env::var(rt, name) {
        Ok(text) => text.as_str().parse::<u64>().unwrap_or(otherwise),
        Err(_) => otherwise,
    }
}

#[test]
fn random_runs(rt: HostRuntime) -> Result<(), Fail> {
    let first = number_of(&rt, "RANDOM_SEED", 1);
    for run in 0..number_of(&rt, "RANDOM_RUNS", 24) {
        random_run(&rt, rt.alloc(), first.wrapping_add(run))?;
    }
    Ok(())
}
