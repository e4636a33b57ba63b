//! A compile of a plan and its zone files to the files of BASE.

ghost use Rattle.std.specs.Prelude.{◌≡◌, map, string_bytes};
ghost use Rattle.minelib_lines.specs.declared.text_name.TextName.{TextName as AName};
ghost use Rattle.devices.specs.sinks.FileSinkView.{HasFile};
ghost use Rattle.compile_command.specs.BaseFiles.{AreThere, IsNoCompileAt, ReportsRowsAt};
ghost use Rattle.compile_command.specs.Compile.{IsNoCompile, ReportsRows};
ghost use Rattle.pit_compile.specs.Sinks.{sink_of, sink_states};
ghost use Rattle.command_io.specs.RunState.{Inputs as AnInputs, run_state};
ghost use Rattle.command_io.specs.World.{CommandEnds};
ghost use Rattle.plan_parts.specs.Destinations.{formulas_of};
ghost use Rattle.run_threads.specs.Starts.{none_spent, AreSettled};

use crate::compile::compile_into;
use crate::instance_files::sinks_of;
use command_io::ending::Ended;
use command_io::refused::Refused;
use command_io::refused::fault_line::report;
use command_io::world::World;
use devices::files::file_slot::{FileSlot, FileSlots};
use devices::files::opener::Opener;
use devices::sinks::file_sink::FileSink;
use devices::sinks::sink::Sink;
use pit_compile::settings::Settings;
use pit_compile::sinks::Sinks;
use pit_model::destination::Destination;
use pit_model::plan::Plan;
use std::alloc::Global;
use std::sync::Wait;
use std::thread::Threads;

/// The end of a task, with the sinks of the files of BASE.
pub type TaskEnded<P> = Ended<Sinks<FileSink<P>>>;

/// Compiles the zone files at these paths, like `compile_into`, into sinks for the files of BASE: `BASE.blocks` and so on, which
/// replace existing files. Makes exactly one slot for each. Returns the end of the task.
///
/// With the status 0 it appended the line of the rows to the text, else the line of the error to the lines. At most one of the two
/// grows. If memory is refused, the status is 4, and both are unchanged; if it is refused for the paths, there are no sinks, and
/// nothing was opened, made or started.
pub fn compile_at<R: Threads + Wait + Sync, O: Opener + Drop, F: FileSlots + Drop>(
    alloc: Global,
    plan: &Plan,
    destinations: &[Destination],
    settings: Settings,
    base: &str,
    zones: &[String],
    world: &mut World<'_, O, F, R>,
) -> TaskEnded<F::Slot>
    requires unspent { world.old.starts ≡ none_spent world.old.starts.allowed }
    ensures ends { let inputs : AnInputs = record {
      plan = plan.now;
      formulas = formulas_of destinations.now;
      zones = map string_bytes zones.now;
      settings = settings;
    } in
        CommandEnds (ReportsRowsAt base.now inputs result.sinks)
        (IsNoCompileAt base.now inputs O.Opened.state result.sinks) world.old world.new result.status }
    ensures there { result.status ≡ 0 → AreThere F.Slot.File.path base.now }
    ensures settled { AreSettled world.old.starts world.new.starts }
{
    let mut sinks = match sinks_of(&mut world.slots, alloc, base) {
        Ok(sinks) => sinks,
        Err(refusal) => {
            return Ended {
                status: report(alloc, &Refused::from(refusal), &mut world.lines),
                sinks: None,
            };
        }
    };
    let status = compile_with(
        alloc,
        plan,
        destinations,
        settings,
        zones,
        &mut sinks,
        world,
    );
    show_all(&sinks);
    Ended {
        status,
        sinks: Some(sinks),
    }
}

// Compiles like `compile_into`, and returns the exit status. With the status 0 it appended the line of the rows to the text, else the
// line of the error to the lines. It makes no slot.
fn compile_with<R: Threads + Wait + Sync, O: Opener + Drop, F: FileSlots + Drop, S: Sink>(
    alloc: Global,
    plan: &Plan,
    destinations: &[Destination],
    settings: Settings,
    zones: &[String],
    sinks: &mut Sinks<S>,
    world: &mut World<'_, O, F, R>,
) -> u8
    requires unspent { world.old.starts ≡ none_spent world.old.starts.allowed }
    ensures ends { let inputs : AnInputs = record {
      plan = plan.now;
      formulas = formulas_of destinations.now;
      zones = map string_bytes zones.now;
      settings = settings;
    } in
        CommandEnds (λ old new. ReportsRows inputs
        (run_state old.opened old.starts (sink_states S.state sinks.old))
        (run_state new.opened new.starts (sink_states S.state sinks.new)) old.text new.text)
        (λ old new. IsNoCompile inputs
        (run_state old.opened old.starts (sink_states S.state sinks.old))
        (run_state new.opened new.starts (sink_states S.state sinks.new)) O.Opened.state)
        world.old world.new result }
    ensures made { world.new.made ≡ world.old.made }
    ensures settled { AreSettled world.old.starts world.new.starts }
{
    match compile_into(
        alloc,
        &mut world.files,
        sinks,
        plan,
        destinations,
        settings,
        &mut world.starts,
        zones,
        &mut world.text,
    ) {
        Ok(()) => 0,
        Err(refused) => report(alloc, &refused, &mut world.lines),
    }
}

// Shows contracts that there is a file at the path of each begun sink. Does nothing.
fn show_all<P: FileSlot>(sinks: &Sinks<FileSink<P>>)
    ensures { (name : AName) → let sink = sink_of sinks.now name in
        HasFile P.File.path sink.begun sink.path }
{
    let _ = sinks.blocks.file();
    let _ = sinks.prec.file();
    let _ = sinks.upit.file();
    let _ = sinks.pcpsp.file();
    let _ = sinks.cpit.file();
}
