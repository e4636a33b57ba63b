//! `pitc` turns the block models of an open pit mine into a MineLib instance.
//!
//! Without arguments it reads a plan and its zone files from standard input, cut at lines `--`, and writes the instance to standard
//! output. `pitc compile` does the same from files to files. `pitc check BASE` reads the files of an instance and prints its
//! counts.
#![tactic(auto)]

ghost use Rattle.std.specs.Prelude.{◌≡◌, ◌<◌, ◌≤◌, Err, length, map, string_bytes, IfErr, IfOk, OnErr};
ghost use Rattle.std.specs.Process.{exit_status};
ghost use Rattle.command_io.specs.Ending.{Exits, Reports};
ghost use Rattle.command_io.specs.PlanFile.{IsNotBegun};
ghost use Rattle.command_io.specs.World.{CommandEnds, OnlyOpens};
ghost use Rattle.compile_command.specs.Printed.{IsNoInput, IsNotPrinted, PrintsInput};
ghost use Rattle.compile_command.specs.Task.{TouchesNoFile, IsNoTask, IsTaskDone, plan_in};
ghost use Rattle.pitc.specs.Jobs.{CompilesFrom, DoesArguments, IsNoCompileFrom, IsNothingDone, Pipes, WorksFor};
ghost use Rattle.plan_parts.specs.PlanFormulas.{formulas_of_plan};
ghost use Rattle.plan_parts.specs.formulas.Formula.{IsFormulaInRange};
ghost use Rattle.plan_parts.specs.formulas.Worth.{worth};
ghost use Rattle.run_threads.specs.Starts.{none_spent, AreSettled};

use check_command::check::check;
use command_io::arguments::arguments_of;
use command_io::ending::{Ended, Streams, end};
use command_io::plan_file::read_plan_file;
use command_io::refused::Refused;
use command_io::world::World;
use command_lines::job::{Job, RunArguments, append_fault};
use command_lines::stated_job::job;
use compile_command::compile_at::TaskEnded;
use compile_command::model::read_model;
use compile_command::task::Task;
use devices::feeds::feed::Feed;
use devices::feeds::read_feed::ReadFeed;
use devices::files::file_slot::FileSlots;
use devices::files::opener::Opener;
use devices::files::system_files::SystemFiles;
use devices::files::system_slots::SystemSlots;
use devices::sinks::sink::Sink;
use devices::sinks::write_sink::WriteSink;
use pit_compile::{MAX_STARTS, Starts};
use pit_model::block::Block;
use pit_model::destination::{Destination, Valuer};
use std::alloc::{AllocError, Global};
use std::env;
use std::process::ExitCode;
use std::sync::Wait;
use std::thread::Threads;

fn main(rt: HostRuntime) -> ExitCode {
    let alloc = rt.alloc();
    start(
        alloc,
        arguments_of(alloc, env::args(&rt)),
        ReadFeed::new(rt.stdin()),
        SystemFiles::new(&rt),
        SystemSlots::new(&rt),
        Starts::new(&rt, MAX_STARTS),
        WriteSink::new(rt.stdout()),
        WriteSink::new(rt.stderr()),
    )
}

// Runs the program in a world of these files, slots and starts.
fn start<
    I: Feed + Drop,
    O: Opener + Drop,
    F: FileSlots + Drop,
    T: Threads + Wait + Sync,
    P: Sink + Drop,
    E: Sink + Drop,
>(
    alloc: Global,
    arguments: Result<Vec<String>, Refused>,
    mut input: I,
    files: O,
    slots: F,
    starts: Starts<'_, T>,
    output: P,
    errors: E,
) -> ExitCode
    requires unspent { starts ≡ none_spent starts.allowed }
{
    let mut world = World::new(alloc, files, slots, starts);
    let mut streams = Streams { output, errors };
    program(alloc, arguments, &mut input, &mut world, &mut streams)
}

// Does what the arguments state, and prints what that leaves in the world. Returns the exit status of the program.
fn program<
    I: Feed,
    T: Threads + Wait + Sync,
    O: Opener + Drop,
    F: FileSlots + Drop,
    P: Sink,
    E: Sink,
>(
    alloc: Global,
    arguments: Result<Vec<String>, Refused>,
    input: &mut I,
    world: &mut World<'_, O, F, T>,
    streams: &mut Streams<P, E>,
) -> ExitCode
    requires unspent { world.old.starts ≡ none_spent world.old.starts.allowed }
    ensures unusable { IfErr arguments (λ refused. Exits P.state E.state
        (Reports refused world.old world.new) world.new streams.old streams.new (exit_status result)) }
    ensures piped { IfOk arguments (λ words. length words.items ≤ 1 → Exits P.state E.state
        (Pipes (I.state input.old) (I.state input.new) world.old world.new)
        world.new streams.old streams.new (exit_status result)) }
    ensures done { IfOk arguments (λ words. 1 < length words.items → Exits P.state E.state
        (WorksFor O.Opened.state O.File.path (map string_bytes words.items) world.old world.new)
        world.new streams.old streams.new (exit_status result)) }
    ensures untouched { IfErr arguments (λ _. input.new ≡ input.old) }
    ensures apart { IfOk arguments (λ words. 1 < length words.items → input.new ≡ input.old) }
    ensures settled { AreSettled world.old.starts world.new.starts }
{
    let ended = work(alloc, arguments, input, world);
    end(alloc, ended, world, streams)
}

// Does what the arguments state, and returns how it ended. Without arguments after the program's name, it prints the instance of the model in
// the input; else it leaves the input alone.
fn work<I: Feed, T: Threads + Wait + Sync, O: Opener + Drop, F: FileSlots + Drop>(
    alloc: Global,
    arguments: Result<Vec<String>, Refused>,
    input: &mut I,
    world: &mut World<'_, O, F, T>,
) -> Result<TaskEnded<F::Slot>, Refused>
    requires unspent { world.old.starts ≡ none_spent world.old.starts.allowed }
    ensures unusable { IfErr arguments (λ refused. (result ≡ Err refused) × (input.new ≡ input.old)
        × (world.new ≡ world.old)) }
    ensures printed { IfOk arguments (λ words. length words.items ≤ 1
        → IfOk result (λ ended. CommandEnds (PrintsInput (I.state input.old) (I.state input.new))
        (IsNotPrinted (I.state input.old) (I.state input.new)) world.old world.new ended.status)) }
    ensures unread { IfOk arguments (λ words. length words.items ≤ 1
        → IfErr result (IsNoInput (I.state input.old) (I.state input.new))) }
    ensures unasked { IfOk arguments (λ words. length words.items ≤ 1
        → TouchesNoFile world.old world.new) }
    ensures done { IfOk arguments (λ words. 1 < length words.items
        → IfOk result (λ ended. DoesArguments O.Opened.state O.File.path
        (map string_bytes words.items) ended.sinks world.old world.new ended.status)) }
    ensures undone { IfOk arguments (λ words. 1 < length words.items
        → IfErr result (IsNothingDone O.Opened.state (map string_bytes words.items)
        world.old world.new)) }
    ensures apart { IfOk arguments (λ words. 1 < length words.items → input.new ≡ input.old) }
    ensures still { OnErr result (OnlyOpens world.old world.new) }
    ensures settled { AreSettled world.old.starts world.new.starts }
{
    let arguments = arguments?;
    if arguments.len() <= 1 {
        return print_model(alloc, input, world);
    }
    perform(alloc, arguments.as_slice(), world)
}

// Does what the arguments after the program's name state.
fn perform<T: Threads + Wait + Sync, O: Opener + Drop, F: FileSlots + Drop>(
    alloc: Global,
    arguments: &[String],
    world: &mut World<'_, O, F, T>,
) -> Result<TaskEnded<F::Slot>, Refused>
    requires unspent { world.old.starts ≡ none_spent world.old.starts.allowed }
    ensures done { IfOk result (λ ended. DoesArguments O.Opened.state O.File.path
        (map string_bytes arguments.now) ended.sinks world.old world.new ended.status) }
    ensures undone { IfErr result (IsNothingDone O.Opened.state
        (map string_bytes arguments.now) world.old world.new) }
    ensures still { OnErr result (OnlyOpens world.old world.new) }
    ensures settled { AreSettled world.old.starts world.new.starts }
{
    match job(alloc, arguments) {
        Ok(Job::Compile(run)) => compile(alloc, run, world),
        Ok(Job::Check { base }) => {
            let status = check(
                alloc,
                &mut world.files,
                base.as_str(),
                &mut world.text,
                &mut world.lines,
            );
            Ok(Ended {
                status,
                sinks: None,
            })
        }
        Err(fault) => {
            let status = append_fault(alloc, &fault, &mut world.text, &mut world.lines)?;
            Ok(Ended {
                status,
                sinks: None,
            })
        }
    }
}

// Prints the instance of the model in the input, and opens no file.
fn print_model<I: Feed, T: Threads + Wait + Sync, O: Opener + Drop, F: FileSlots + Drop>(
    alloc: Global,
    input: &mut I,
    world: &mut World<'_, O, F, T>,
) -> Result<TaskEnded<F::Slot>, Refused>
    requires unspent { world.old.starts ≡ none_spent world.old.starts.allowed }
    ensures ends { IfOk result (λ ended. CommandEnds
        (PrintsInput (I.state input.old) (I.state input.new))
        (IsNotPrinted (I.state input.old) (I.state input.new)) world.old world.new ended.status) }
    ensures unread { IfErr result (IsNoInput (I.state input.old) (I.state input.new)) }
    ensures still { OnErr result ((world.new.starts ≡ world.old.starts)
        × (world.new.text ≡ world.old.text) × (world.new.lines ≡ world.old.lines)) }
    ensures opened { world.new.opened ≡ world.old.opened }
    ensures made { world.new.made ≡ world.old.made }
    ensures settled { AreSettled world.old.starts world.new.starts }
{
    let task = Task::Pipe(read_model(alloc, input)?);
    let ended = run(alloc, &task, world)?;
    Ok(ended)
}

// Compiles the plan in the file of the arguments to the files of BASE.
fn compile<T: Threads + Wait + Sync, O: Opener + Drop, F: FileSlots + Drop>(
    alloc: Global,
    arguments: RunArguments,
    world: &mut World<'_, O, F, T>,
) -> Result<TaskEnded<F::Slot>, Refused>
    requires unspent { world.old.starts ≡ none_spent world.old.starts.allowed }
    ensures ends { IfOk result (λ ended. CommandEnds
        (CompilesFrom O.Opened.state arguments ended.sinks)
        (IsNoCompileFrom O.Opened.state arguments ended.sinks) world.old world.new ended.status) }
    ensures unread { IfErr result (IsNotBegun O.Opened.state (string_bytes arguments.plan)
        world.old.opened world.new.opened) }
    ensures still { OnErr result (OnlyOpens world.old world.new) }
    ensures settled { AreSettled world.old.starts world.new.starts }
{
    let plan = read_plan_file(alloc, &mut world.files, arguments.plan.as_str())?;
    let RunArguments {
        out,
        settings,
        zones,
        ..
    } = arguments;
    let task = Task::Files {
        plan,
        settings,
        base: out,
        zones,
    };
    Ok(run(alloc, &task, world)?)
}

// Runs the task with the destinations of its plan, in order. It makes the closures itself, since a function that returned a closure
// could guarantee nothing about it.
fn run<T: Threads + Wait + Sync, O: Opener + Drop, F: FileSlots + Drop>(
    alloc: Global,
    task: &Task,
    world: &mut World<'_, O, F, T>,
) -> Result<TaskEnded<F::Slot>, AllocError>
    requires unspent { world.old.starts ≡ none_spent world.old.starts.allowed }
    ensures ends { let formulas = formulas_of_plan (plan_in task.now) in
        IfOk result (λ ended. CommandEnds (IsTaskDone formulas task.now ended.sinks)
        (IsNoTask formulas O.Opened.state task.now ended.sinks)
        world.old world.new ended.status) }
    ensures still { OnErr result (world.new ≡ world.old) }
    ensures settled { AreSettled world.old.starts world.new.starts }
{
    let mut destinations = Vec::new(alloc);
    for named in task.plan().formulas() {
        let kept = named.formula.copy(alloc)?;
        let valuer: Valuer = Box::new(
            alloc,
            move |block: Block| -> i128
                requires { IsFormulaInRange kept }
                ensures { result ≡ worth kept block }
            { kept.worth(block) },
        )?;
        destinations.push(Destination::new(named.formula.copy(alloc)?, valuer))?;
    }
    let destinations = destinations.as_slice();
    Ok(task.run(alloc, destinations, world))
}
