//! From the files of a plan and its zones to the reduced lists of their predecessors.

ghost use Rattle.std.specs.Prelude.{◌≡◌, ◌++◌, [], ◌∷◌, map, string_bytes, IfErr, IfOk, OnErr, OnOk};
ghost use Rattle.command_io.specs.RunState.{Inputs as AnInputs, run_state};
ghost use Rattle.command_io.specs.World.{CommandEnds};
ghost use Rattle.plan_parts.specs.Destinations.{formulas_of};
ghost use Rattle.run_threads.specs.Starts.{none_spent, AreSettled};
ghost use Rattle.thin_command.specs.CountsText.{counts_words};
ghost use Rattle.thin_command.specs.Thin.{IsNotThinned, ReportsThinned};

use crate::counts::ThinCounts;
use crate::thin_writing::write_reduced;
use command_io::refused::Refused;
use command_io::refused::fault_line::report;
use command_io::world::World;
use command_io::zone_feeds::open_all;
use devices::files::file_slot::FileSlots;
use devices::files::opener::Opener;
use devices::sinks::sink::Sink;
use pit_compile::settings::Settings;
use pit_compile::{Compiled, Starts, compile_with_starts};
use pit_model::destination::Destination;
use pit_model::plan::Plan;
use std::alloc::{AllocError, Global};
use std::sync::Wait;
use std::thread::Threads;

/// Compiles the zone files at these paths, as `compile` does with a test hook that is always open, and writes the reduced lists of their
/// instance to the sink as a precedence file. Appends the line `rows N arcs M of L` to `out`: the numbers of blocks, retained arcs and
/// all arcs. Opens the zone files in order, and no other file.
///
/// - If a zone file cannot be opened, fails before anything else, for the first such file.
/// - Does not begin the sink before all blocks are known to be different.
///
/// # Errors
///
/// `out` is unchanged.
///
/// - `FeedFailed` of a zone file: it cannot be opened, and the sink is unchanged.
/// - `Run`: the zone files are rejected, and the sink is unchanged; or the sink failed; or memory was refused, perhaps for the line
///   alone, after the text was written.
///
/// `starts` must be unspent, and records the started threads: `NoThread` is returned only if a start was refused before there were enough
/// threads.
#[tactic(auto, using(crate::proofs::Thins::unopened_files))]
pub fn thin_into<R: Threads + Wait + Sync, O: Opener, S: Sink>(
    alloc: Global,
    files: &mut O,
    sink: &mut S,
    plan: &Plan,
    destinations: &[Destination],
    settings: Settings,
    starts: &mut Starts<'_, R>,
    zones: &[String],
    out: &mut Vec<u8>,
) -> Result<(), Refused>
    requires unspent { starts.old ≡ none_spent starts.old.allowed }
    ensures done { OnOk result (ReportsThinned (record {
      plan = plan.now;
      formulas = formulas_of destinations.now;
      zones = map string_bytes zones.now;
      settings = settings;
    }) (run_state (O.opened files.old) starts.old (S.state sink.old))
        (run_state (O.opened files.new) starts.new (S.state sink.new)) out.old.items out.new.items) }
    ensures kept { OnErr result (out.new.items ≡ out.old.items) }
    ensures refused { IfErr result (IsNotThinned (record {
      plan = plan.now;
      formulas = formulas_of destinations.now;
      zones = map string_bytes zones.now;
      settings = settings;
    }) (run_state (O.opened files.old) starts.old (S.state sink.old))
        (run_state (O.opened files.new) starts.new (S.state sink.new)) O.Opened.state) }
    ensures settled { AreSettled starts.old starts.new }
{
    let feeds = open_all(alloc, zones, files)?;
    let Compiled { instance, .. } = compile_with_starts(
        alloc,
        feeds,
        plan,
        destinations,
        settings,
        starts,
    )?;
    let counts = write_reduced(alloc, instance, sink)?;
    append_counts(alloc, counts, out)?;
    Ok(())
}

/// Does the same as `thin_into`, and returns the exit status of the program. If it is 0, appends the line of the counts to the text, else
/// the line of the failure to the lines. Only one of the two grows. If memory is refused, the status is the status of out of memory, and
/// both are unchanged. Makes no slot.
pub fn thin<R: Threads + Wait + Sync, O: Opener + Drop, F: FileSlots + Drop, S: Sink>(
    alloc: Global,
    plan: &Plan,
    destinations: &[Destination],
    settings: Settings,
    zones: &[String],
    sink: &mut S,
    world: &mut World<'_, O, F, R>,
) -> u8
    requires unspent { world.old.starts ≡ none_spent world.old.starts.allowed }
    ensures ends { let inputs : AnInputs = record {
      plan = plan.now;
      formulas = formulas_of destinations.now;
      zones = map string_bytes zones.now;
      settings = settings;
    } in
        CommandEnds (λ old new. ReportsThinned inputs
        (run_state old.opened old.starts (S.state sink.old))
        (run_state new.opened new.starts (S.state sink.new)) old.text new.text)
        (λ old new. IsNotThinned inputs (run_state old.opened old.starts (S.state sink.old))
        (run_state new.opened new.starts (S.state sink.new)) O.Opened.state)
        world.old world.new result }
    ensures made { world.new.made ≡ world.old.made }
    ensures settled { AreSettled world.old.starts world.new.starts }
{
    match thin_into(
        alloc,
        &mut world.files,
        sink,
        plan,
        destinations,
        settings,
        &mut world.starts,
        zones,
        &mut world.text,
    ) {
        Ok(()) => 0,
        Err(refused) => report(alloc, &refused, &mut world.lines),
    }
}

// Appends the line of the counts to `out`. If memory is refused, `out` is unchanged.
fn append_counts(alloc: Global, counts: ThinCounts, out: &mut Vec<u8>) -> Result<(), AllocError>
    ensures reported { OnOk result
        (out.new.items ≡ out.old.items ++ (counts_words counts ++ 10 ∷ [])) }
    ensures kept { OnErr result (out.new.items ≡ out.old.items) }
{
    let line = format!(in alloc; "{counts}\n")?;
    out.extend_from_slice(line.as_bytes())
}
