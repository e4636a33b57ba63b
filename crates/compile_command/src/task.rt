//! A model to compile, by the pipe form or from files to files.

ghost use Rattle.std.specs.Prelude.{◌≡◌, ◌+◌, length, IfErr, OnErr, OnOk};
ghost use Rattle.plan_parts.specs.Destinations.{formulas_of};
ghost use Rattle.command_io.specs.World.{CommandEnds};
ghost use Rattle.run_threads.specs.Starts.{none_spent, AreSettled, AreSpent};
ghost use Rattle.compile_command.specs.Printed.{IsNoPipe, IsPrinted};
ghost use Rattle.compile_command.specs.Task.{IsNoTask, IsTaskDone, plan_in};

use crate::compile_at::{TaskEnded, compile_at};
use crate::model::Model;
use crate::pipe_form::pipe_with_starts;
use command_io::ending::Ended;
use command_io::refused::Refused;
use command_io::refused::fault_line::report;
use command_io::world::World;
use devices::files::file_slot::FileSlots;
use devices::files::opener::Opener;
use pit_compile::Starts;
use pit_compile::settings::Settings;
use pit_model::destination::Destination;
use pit_model::plan::Plan;
use std::alloc::Global;
use std::sync::Wait;
use std::thread::Threads;

/// A model to compile.
#[derive(Drop)]
pub enum Task {
    /// The model in an input, whose instance is printed.
    Pipe(Model),
    /// A plan with the paths of its zone files, whose instance is written to the files of BASE.
    Files {
        plan: Plan,
        settings: Settings,
        base: String,
        zones: Vec<String>,
    },
}

impl Task {
    /// Returns the plan of the model.
    pub fn plan(&self) -> &Plan
        ensures { result.now ≡ plan_in self.now }
    {
        match self {
            Task::Pipe(model) => &model.plan,
            Task::Files { plan, .. } => plan,
        }
    }

    /// Compiles the model with these destinations, and returns the end of the task. With the status 0 it appends the output to the
    /// text, else the line of the error to the lines. Only a task with files opens files and makes slots.
    pub fn run<R: Threads + Wait + Sync, O: Opener + Drop, F: FileSlots + Drop>(
        &self,
        alloc: Global,
        destinations: &[Destination],
        world: &mut World<'_, O, F, R>,
    ) -> TaskEnded<F::Slot>
        requires unspent { world.old.starts ≡ none_spent world.old.starts.allowed }
        ensures ends { let formulas = formulas_of destinations.now in
            CommandEnds (IsTaskDone formulas self.now result.sinks)
            (IsNoTask formulas O.Opened.state self.now result.sinks) world.old world.new result.status }
        ensures settled { AreSettled world.old.starts world.new.starts }
    {
        match self {
            Task::Pipe(model) => {
                let status = match run_pipe(
                    alloc,
                    model,
                    destinations,
                    &mut world.starts,
                    &mut world.text,
                ) {
                    Ok(()) => 0,
                    Err(refused) => report(alloc, &refused, &mut world.lines),
                };
                Ended {
                    status,
                    sinks: None,
                }
            }
            Task::Files {
                plan,
                settings,
                base,
                zones,
            } => compile_at(
                alloc,
                plan,
                destinations,
                *settings,
                base.as_str(),
                zones.as_slice(),
                world,
            ),
        }
    }
}

// Appends what the pipe form prints for the model to `text`. After an error `text` is unchanged.
fn run_pipe<R: Threads + Wait + Sync>(
    alloc: Global,
    model: &Model,
    destinations: &[Destination],
    starts: &mut Starts<'_, R>,
    text: &mut Vec<u8>,
) -> Result<(), Refused>
    requires { starts.old ≡ none_spent starts.old.allowed }
    ensures done { OnOk result
        (IsPrinted model.now.plan model.now.pieces.zones text.old.items text.new.items) }
    ensures started { OnOk result (AreSpent (4 + length model.now.pieces.zones) starts.new) }
    ensures kept { OnErr result (text.new.items ≡ text.old.items) }
    ensures refused { IfErr result
        (IsNoPipe model.now.plan (formulas_of destinations.now) model.now.pieces.zones starts.old
        starts.new) }
    ensures settled { AreSettled starts.old starts.new }
{
    let zones = model.pieces.zones();
    pipe_with_starts(alloc, zones, &model.plan, destinations, starts, text)?;
    Ok(())
}
