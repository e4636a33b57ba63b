//! The pipe form: from the parts of the input to the printed instance.

ghost use Rattle.std.specs.Prelude.{◌≡◌, ◌+◌, ◌↔◌, Err, Some, true, length, map, IfErr, IfOk, OnErr, OnOk};
ghost use Rattle.devices.specs.feeds.FeedState.{all_remaining};
ghost use Rattle.pit_compile.specs.ZoneFiles.{HasPassed};
ghost use Rattle.pit_compile.specs.Settings.{IsSettingsFault};
ghost use Rattle.refusals.specs.declared.settings_fault.SettingsFault.{SettingsFault as ASettingsFault};
ghost use Rattle.plan_parts.specs.Destinations.{formulas_of};
ghost use Rattle.pit_compile.specs.Starts.{SpendsStarts};
ghost use Rattle.run_threads.specs.Starts.{none_spent};
ghost use Rattle.compile_command.specs.Printed.{pipe_settings, IsPrinted, PipeRefused};

use command_io::pieces::Piece;
use command_io::printing::print;
use devices::feeds::feed::Feed;
use devices::feeds::slice_feed::SliceFeed;
use lane::Gathered;
use pit_compile::settings::{Settings, require_settings};
use pit_compile::{MAX_STARTS, Starts, compile_with_starts};
use pit_model::destination::Destination;
use pit_model::plan::Plan;
use plan_parts::ranges::{USUAL_CAPACITY, USUAL_VALUERS};
use refusals::refusal::Refusal;
use std::alloc::{AllocError, Global};
use std::sync::Wait;
use std::thread::Threads;

/// The settings of the pipe form.
pub const SETTINGS: Settings = Settings {
    valuers: USUAL_VALUERS,
    capacity: USUAL_CAPACITY,
};

/// Appends what the pipe form prints for the model of a plan and its zone files. Returns the messages that passed the lane.
///
/// # Errors
///
/// `out` is unchanged. Returns the first that applies; after `Settings`, `OutOfMemory` may replace any.
///
/// - `Settings`: the zone files or the destinations are not the plan's.
/// - `NoThread`: a thread could not be started.
/// - `TooLong` or `Row`: of the first zone file that has a fault.
/// - `Same`: two blocks are in the same cell.
pub fn pipe<R: Threads + Wait + Sync>(
    rt: &R,
    alloc: Global,
    zones: &[Piece],
    plan: &Plan,
    destinations: &[Destination],
    out: &mut Vec<u8>,
) -> Result<Gathered, Refusal>
    ensures settings { (kind : ASettingsFault) → (result ≡ Err (Refusal.Settings kind))
        ↔ IsSettingsFault plan.now (length zones.now) (formulas_of destinations.now) pipe_settings
        kind }
    ensures passed { IfOk result (HasPassed plan.now zones.now 4 64) }
    ensures printed { OnOk result (IsPrinted plan.now zones.now out.old.items out.new.items) }
    ensures refused { IfErr result (PipeRefused plan.now (formulas_of destinations.now) zones.now) }
    ensures kept { OnErr result (out.new.items ≡ out.old.items) }
{
    let mut starts = Starts::new(rt, MAX_STARTS);
    pipe_with_starts(alloc, zones, plan, destinations, &mut starts, out)
}

/// Does the same with starts that the caller provides. Afterwards `starts` shows what happened: `NoThread` is returned only if a
/// start was refused before there were enough threads.
pub fn pipe_with_starts<R: Threads + Wait + Sync>(
    alloc: Global,
    zones: &[Piece],
    plan: &Plan,
    destinations: &[Destination],
    starts: &mut Starts<'_, R>,
    out: &mut Vec<u8>,
) -> Result<Gathered, Refusal>
    requires unspent { starts.old ≡ none_spent starts.old.allowed }
    ensures settings { (kind : ASettingsFault) → (result ≡ Err (Refusal.Settings kind))
        ↔ IsSettingsFault plan.now (length zones.now) (formulas_of destinations.now) pipe_settings
        kind }
    ensures passed { IfOk result (HasPassed plan.now zones.now 4 64) }
    ensures printed { OnOk result (IsPrinted plan.now zones.now out.old.items out.new.items) }
    ensures refused { IfErr result (PipeRefused plan.now (formulas_of destinations.now) zones.now) }
    ensures kept { OnErr result (out.new.items ≡ out.old.items) }

    // The starts that were spent.
    ensures spends { SpendsStarts (4 + length zones.now) starts.old starts.new result }
{
    require_settings(zones.len(), plan, destinations, SETTINGS)?;
    let feeds = borrowed(alloc, zones)?;
    let compiled = compile_with_starts(alloc, feeds, plan, destinations, SETTINGS, starts)?;
    print(alloc, &compiled.instance, out)?;
    Ok(compiled.gathered)
}

// Makes a feed that borrows its bytes for each part.
fn borrowed<'a>(alloc: Global, zones: &'a [Piece]) -> Result<Vec<SliceFeed<'a>>, AllocError>
    ensures count { IfOk result (λ feeds. length feeds.items ≡ length zones.now) }
    ensures remaining { IfOk result (λ feeds. all_remaining (⟦<SliceFeed<'a> as Feed>⟧.state) feeds.items
        ≡ map Some zones.now) }
    ensures sure { IfOk result (λ feeds. map (λ feed. (⟦<SliceFeed<'a> as Feed>⟧.state feed).is_sure)
        feeds.items ≡ map (λ _. true) zones.now) }
{
    let mut feeds = Vec::with_capacity(alloc, zones.len())?;
    for zone in zones {
        feeds.push(SliceFeed::new(zone.as_slice()))?;
    }
    Ok(feeds)
}
