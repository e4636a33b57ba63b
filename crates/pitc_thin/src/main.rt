//! `pitc_thin` writes the precedences of a model, and drops arcs that follow from others.
//!
//! It reads a plan and its zone files like `pitc compile`, and writes one precedence file.
#![tactic(auto)]

ghost use Rattle.std.specs.Prelude.{◌≡◌, ◌++◌, [], ◌∷◌, Err, map, string_bytes, IfErr, IfOk, OnErr, OnOk};
ghost use Rattle.std.specs.Process.{exit_status};
ghost use Rattle.command_io.specs.Ending.{Exits, Reports};
ghost use Rattle.command_io.specs.PlanFile.{IsNotBegun};
ghost use Rattle.command_io.specs.RunState.{inputs_of_plan, run_state};
ghost use Rattle.command_io.specs.World.{CommandEnds, OnlyOpens};
ghost use Rattle.devices.specs.sinks.FileSinkView.{file_sink_state, unbegun};
ghost use Rattle.pitc_thin.specs.Thinning.{DoesArguments, IsNothingDone, Thins, WorksFor};
ghost use Rattle.plan_parts.specs.formulas.Formula.{IsFormulaInRange};
ghost use Rattle.plan_parts.specs.formulas.Worth.{worth};
ghost use Rattle.run_threads.specs.Starts.{none_spent, AreSettled};
ghost use Rattle.thin_command.specs.Thin.{IsNotThinned, ReportsThinned};

use command_io::arguments::arguments_of;
use command_io::ending::{Ended, Streams, end};
use command_io::plan_file::read_plan_file;
use command_io::refused::Refused;
use command_io::world::World;
use command_lines::job::{RunArguments, append_fault};
use command_lines::thin_line::thin_run;
use devices::files::file_slot::FileSlots;
use devices::files::opener::Opener;
use devices::files::system_files::SystemFiles;
use devices::files::system_slots::SystemSlots;
use devices::sinks::file_sink::FileSink;
use devices::sinks::sink::Sink;
use devices::sinks::write_sink::WriteSink;
use pit_compile::{MAX_STARTS, Starts};
use pit_model::block::Block;
use pit_model::destination::{Destination, Valuer};
use pit_model::plan::Plan;
use plan_parts::settings::Settings;
use std::alloc::{AllocError, Global};
use std::env;
use std::process::ExitCode;
use std::sync::Wait;
use std::thread::Threads;
use thin_command::thin::thin;

fn main(rt: HostRuntime) -> ExitCode {
    let alloc = rt.alloc();
    start(
        alloc,
        arguments_of(alloc, env::args(&rt)),
        SystemFiles::new(&rt),
        SystemSlots::new(&rt),
        Starts::new(&rt, MAX_STARTS),
        WriteSink::new(rt.stdout()),
        WriteSink::new(rt.stderr()),
    )
}

// Runs the program in a world of these files, slots and starts.
fn start<
    O: Opener + Drop,
    F: FileSlots + Drop,
    T: Threads + Wait + Sync,
    P: Sink + Drop,
    E: Sink + Drop,
>(
    alloc: Global,
    arguments: Result<Vec<String>, Refused>,
    files: O,
    slots: F,
    starts: Starts<'_, T>,
    output: P,
    errors: E,
) -> ExitCode
    requires unspent { starts ≡ none_spent starts.allowed }
{
    let mut world = World::new(alloc, files, slots, starts);
    let mut streams = Streams { output, errors };
    program(alloc, arguments, &mut world, &mut streams)
}

// Does what the arguments state, and prints what that leaves in the world. Returns the exit status of the program.
fn program<T: Threads + Wait + Sync, O: Opener + Drop, F: FileSlots + Drop, P: Sink, E: Sink>(
    alloc: Global,
    arguments: Result<Vec<String>, Refused>,
    world: &mut World<'_, O, F, T>,
    streams: &mut Streams<P, E>,
) -> ExitCode
    requires unspent { world.old.starts ≡ none_spent world.old.starts.allowed }
    ensures unusable { IfErr arguments (λ refused. Exits P.state E.state
        (Reports refused world.old world.new) world.new streams.old streams.new (exit_status result)) }
    ensures done { IfOk arguments (λ words. Exits P.state E.state
        (WorksFor O.Opened.state (map string_bytes words.items) world.old world.new)
        world.new streams.old streams.new (exit_status result)) }
    ensures settled { AreSettled world.old.starts world.new.starts }
{
    let ended = work(alloc, arguments, world);
    end(alloc, ended, world, streams)
}

// Does what the arguments state, and returns how it ended.
fn work<T: Threads + Wait + Sync, O: Opener + Drop, F: FileSlots + Drop>(
    alloc: Global,
    arguments: Result<Vec<String>, Refused>,
    world: &mut World<'_, O, F, T>,
) -> Result<Ended<FileSink<F::Slot>>, Refused>
    requires unspent { world.old.starts ≡ none_spent world.old.starts.allowed }
    ensures unusable { IfErr arguments (λ refused. (result ≡ Err refused) × (world.new ≡ world.old)) }
    ensures done { IfOk arguments (λ words. IfOk result (λ ended. DoesArguments O.Opened.state
        (map string_bytes words.items) ended.sinks world.old world.new ended.status)) }
    ensures undone { IfOk arguments (λ words. IfErr result (IsNothingDone O.Opened.state
        (map string_bytes words.items) world.old world.new)) }
    ensures still { OnErr result (OnlyOpens world.old world.new) }
    ensures settled { AreSettled world.old.starts world.new.starts }
{
    let arguments = arguments?;
    perform(alloc, arguments.as_slice(), world)
}

// Does what the arguments state, which begin with the program's name.
fn perform<T: Threads + Wait + Sync, O: Opener + Drop, F: FileSlots + Drop>(
    alloc: Global,
    arguments: &[String],
    world: &mut World<'_, O, F, T>,
) -> Result<Ended<FileSink<F::Slot>>, Refused>
    requires unspent { world.old.starts ≡ none_spent world.old.starts.allowed }
    ensures done { IfOk result (λ ended. DoesArguments O.Opened.state
        (map string_bytes arguments.now) ended.sinks world.old world.new ended.status) }
    ensures undone { IfErr result (IsNothingDone O.Opened.state
        (map string_bytes arguments.now) world.old world.new) }
    ensures still { OnErr result (OnlyOpens world.old world.new) }
    ensures settled { AreSettled world.old.starts world.new.starts }
{
    match thin_run(alloc, arguments) {
        Ok(run) => thin_from(alloc, run, world),
        Err(fault) => {
            let status = append_fault(alloc, &fault, &mut world.text, &mut world.lines)?;
            Ok(Ended {
                status,
                sinks: None,
            })
        }
    }
}

// Writes the retained precedences of the plan and the zone files of the arguments.
fn thin_from<T: Threads + Wait + Sync, O: Opener + Drop, F: FileSlots + Drop>(
    alloc: Global,
    arguments: RunArguments,
    world: &mut World<'_, O, F, T>,
) -> Result<Ended<FileSink<F::Slot>>, Refused>
    requires unspent { world.old.starts ≡ none_spent world.old.starts.allowed }
    ensures ends { IfOk result (λ ended. Thins O.Opened.state arguments ended.sinks
        world.old world.new ended.status) }
    ensures unread { IfErr result (IsNotBegun O.Opened.state (string_bytes arguments.plan)
        world.old.opened world.new.opened) }
    ensures still { OnErr result (OnlyOpens world.old world.new) }
    ensures settled { AreSettled world.old.starts world.new.starts }
{
    let plan = read_plan_file(alloc, &mut world.files, arguments.plan.as_str())?;
    let RunArguments {
        out,
        settings,
        zones,
        ..
    } = arguments;
    let run = run(alloc, &plan, settings, zones.as_slice(), out, world)?;
    Ok(Ended {
        status: run.0,
        sinks: Some(run.1),
    })
}

// The same for this plan, with its destinations in order. Returns the exit status and the sink of FILE, whose slot is made once all memory
// is there. It makes the closures itself, since a function that returned a closure could guarantee nothing about it.
fn run<T: Threads + Wait + Sync, O: Opener + Drop, F: FileSlots + Drop>(
    alloc: Global,
    plan: &Plan,
    settings: Settings,
    zones: &[String],
    out: String,
    world: &mut World<'_, O, F, T>,
) -> Result<(u8, FileSink<F::Slot>), AllocError>
    requires unspent { world.old.starts ≡ none_spent world.old.starts.allowed }
    ensures ends { let inputs = inputs_of_plan plan.now (map string_bytes zones.now) settings in
        let first = file_sink_state (unbegun F.Slot.reports (string_bytes out)) in
        IfOk result (λ ended. CommandEnds
        (λ old new. ReportsThinned inputs (run_state old.opened old.starts first)
        (run_state new.opened new.starts (file_sink_state ended.1)) old.text new.text)
        (λ old new. IsNotThinned inputs (run_state old.opened old.starts first)
        (run_state new.opened new.starts (file_sink_state ended.1)) O.Opened.state)
        world.old world.new ended.0) }
    ensures made { OnOk result (world.new.made ≡ world.old.made ++ string_bytes out ∷ []) }
    ensures still { OnErr result (world.new ≡ world.old) }
    ensures settled { AreSettled world.old.starts world.new.starts }
{
    let mut destinations = Vec::new(alloc);
    for named in plan.formulas() {
        let kept = named.formula.copy(alloc)?;
        let valuer: Valuer = Box::new(
            alloc,
            move |block: Block| -> i128
                requires { IsFormulaInRange kept }
                ensures { result ≡ worth kept block }
            { kept.worth(block) },
        )?;
        destinations.push(Destination::new(named.formula.copy(alloc)?, valuer))?;
    }
    let mut sink = FileSink::from_slot(world.slots.slot(out));
    let status = thin(
        alloc,
        plan,
        destinations.as_slice(),
        settings,
        zones,
        &mut sink,
        world,
    );
    Ok((status, sink))
}
