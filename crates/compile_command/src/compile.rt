//! A compile of zone files to the files of an instance.

ghost use Rattle.std.specs.Prelude.{◌≡◌, ◌++◌, map, string_bytes, IfErr, OnOk, OnErr};
ghost use Rattle.pit_compile.specs.Sinks.{sink_states};
ghost use Rattle.command_io.specs.FaultLine.{IsDoneOrRefused};
ghost use Rattle.command_io.specs.RunState.{Inputs as AnInputs, run_state};
ghost use Rattle.plan_parts.specs.Destinations.{formulas_of};
ghost use Rattle.run_threads.specs.Starts.{none_spent, AreSettled};
ghost use Rattle.command_io.specs.World.{CommandEnds, World as AWorld};
ghost use Rattle.compile_command.specs.BaseFiles.{AreThere, IsNoCompileAt, IsNoCompileOfFiles, ReportsRowsAt, ReportsRowsOfFiles};
ghost use Rattle.compile_command.specs.Compile.{IsNoCompile, ReportsRows, rows_line};

use crate::compile_at::{TaskEnded, compile_at};
use command_io::refused::Refused;
use command_io::world::World;
use command_io::zone_feeds::open_all;
use devices::files::file_access::AtPath;
use devices::files::file_slot::FileSlots;
use devices::files::opener::Opener;
use devices::files::system_files::{SystemFile, SystemFiles};
use devices::files::system_slots::SystemSlots;
use devices::sinks::sink::Sink;
use pit_compile::settings::Settings;
use pit_compile::sinks::Sinks;
use pit_compile::{MAX_STARTS, Starts, run_with_starts};
use pit_model::destination::Destination;
use pit_model::plan::Plan;
use std::alloc::{AllocError, Global};
use std::mem;
use std::rt::Files;
use std::sync::Wait;
use std::thread::Threads;

/// Compiles the zone files at these paths, which it opens in order, into the sinks, like `run` with a gate that is always open.
/// Appends the line `rows N` to `out`; N is the number of rows in all zone files. Opens no other file.
///
/// - The first zone file that cannot be opened is reported before any other error.
/// - The sinks are begun only after all blocks are known to be in different cells.
/// - If a sink then fails, the sinks before it hold their complete files.
///
/// `starts` must have spent none. Afterwards it shows what happened: `NoThread` is returned only if a start was refused before
/// there were enough threads.
///
/// # Errors
///
/// `out` is unchanged.
///
/// - `FeedFailed`: a zone file cannot be opened. The sinks are unchanged.
/// - `Run`: the run failed; or memory was refused, possibly only for the line, after the files were written.
#[tactic(auto, using(crate::proofs::Compiles::unopened_files, crate::proofs::Compiles::refused_line))]
pub fn compile_into<R: Threads + Wait + Sync, O: Opener, S: Sink>(
    alloc: Global,
    files: &mut O,
    sinks: &mut Sinks<S>,
    plan: &Plan,
    destinations: &[Destination],
    settings: Settings,
    starts: &mut Starts<'_, R>,
    zones: &[String],
    out: &mut Vec<u8>,
) -> Result<(), Refused>
    requires unspent { starts.old ≡ none_spent starts.old.allowed }
    ensures done { OnOk result (ReportsRows (record {
      plan = plan.now;
      formulas = formulas_of destinations.now;
      zones = map string_bytes zones.now;
      settings = settings;
    }) (run_state (O.opened files.old) starts.old (sink_states S.state sinks.old))
        (run_state (O.opened files.new) starts.new (sink_states S.state sinks.new))
        out.old.items out.new.items) }
    ensures kept { OnErr result (out.new.items ≡ out.old.items) }
    ensures refused { IfErr result (IsNoCompile (record {
      plan = plan.now;
      formulas = formulas_of destinations.now;
      zones = map string_bytes zones.now;
      settings = settings;
    }) (run_state (O.opened files.old) starts.old (sink_states S.state sinks.old))
        (run_state (O.opened files.new) starts.new (sink_states S.state sinks.new)) O.Opened.state) }
    ensures settled { AreSettled starts.old starts.new }
{
    let feeds = open_all(alloc, zones, files)?;
    let gathered = run_with_starts(alloc, feeds, plan, destinations, settings, starts, sinks)?;
    append_rows(alloc, gathered.rows(), out)?;
    Ok(())
}

/// Compiles the zone files of the system at these paths, and writes the files of the instance: `BASE.blocks` and so on. Replaces
/// existing files. Returns the exit status.
///
/// If all is written, it appends the line `rows N` to `out`; else the line of the error to `err`. At most one of the two grows. If
/// memory is refused, the status is 4, and both are unchanged.
///
/// It is `compile_at` over the system's files, with `MAX_STARTS` starts. No contract can state the content of these files: its
/// clauses are about some files at these paths. If the status is 0, the system has made or opened a file at each path of BASE.
pub fn compile_files<R: Files + Threads + Wait + Sync>(
    rt: &R,
    alloc: Global,
    plan: &Plan,
    destinations: &[Destination],
    settings: Settings,
    base: &str,
    zones: &[String],
    out: &mut Vec<u8>,
    err: &mut Vec<u8>,
) -> u8
where
    R::File: Send,
    ensures ends { let inputs : AnInputs = record {
      plan = plan.now;
      formulas = formulas_of destinations.now;
      zones = map string_bytes zones.now;
      settings = settings;
    } in
        IsDoneOrRefused (ReportsRowsOfFiles base.now inputs) (IsNoCompileOfFiles base.now inputs)
        out.old.items out.new.items err.old.items err.new.items result }
    ensures there { result ≡ 0 → AreThere (⟦<SystemFile<R::File> as AtPath>⟧.path) base.now }
{
    let ended = compile_in(
        alloc,
        SystemFiles::new(rt),
        SystemSlots::new(rt),
        Starts::new(rt, MAX_STARTS),
        plan,
        destinations,
        settings,
        base,
        zones,
        out,
        err,
    );
    ended.status
}

// Does what `compile_at` does in a world of these files, slots and starts, with this text and these lines.
fn compile_in<R: Threads + Wait + Sync, O: Opener + Drop, F: FileSlots + Drop>(
    alloc: Global,
    files: O,
    slots: F,
    starts: Starts<'_, R>,
    plan: &Plan,
    destinations: &[Destination],
    settings: Settings,
    base: &str,
    zones: &[String],
    out: &mut Vec<u8>,
    err: &mut Vec<u8>,
) -> TaskEnded<F::Slot>
    requires unspent { starts ≡ none_spent starts.allowed }
    ensures ends { let inputs : AnInputs = record {
      plan = plan.now;
      formulas = formulas_of destinations.now;
      zones = map string_bytes zones.now;
      settings = settings;
    } in
        let old : AWorld = record {
          reports = F.Slot.reports;
          opened = O.opened files;
          made = F.made slots;
          starts = starts.entry;
          text = out.old.items;
          lines = err.old.items;
        } in
        (new : AWorld) × (new.text ≡ out.new.items) × (new.lines ≡ err.new.items)
        × CommandEnds (ReportsRowsAt base.now inputs result.sinks)
        (IsNoCompileAt base.now inputs O.Opened.state result.sinks) old new result.status }
    ensures there { result.status ≡ 0 → AreThere F.Slot.File.path base.now }
{
    let mut world = World {
        files,
        slots,
        starts,
        text: mem::replace(out, Vec::new(alloc)),
        lines: mem::replace(err, Vec::new(alloc)),
    };
    let ended = compile_at(alloc, plan, destinations, settings, base, zones, &mut world);
    *out = mem::replace(&mut world.text, Vec::new(alloc));
    *err = mem::replace(&mut world.lines, Vec::new(alloc));
    ended
}

// Appends the line with this number of rows to `out`. If memory is refused, `out` is unchanged.
fn append_rows(alloc: Global, rows: u64, out: &mut Vec<u8>) -> Result<(), AllocError>
    ensures reported { OnOk result (out.new.items ≡ out.old.items ++ rows_line rows) }
    ensures kept { OnErr result (out.new.items ≡ out.old.items) }
{
    let line = format!(in alloc; "rows {rows}\n")?;
    out.extend_from_slice(line.as_bytes())
}
