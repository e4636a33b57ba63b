//! The run: from zone files to the files of the instance.

ghost use Rattle.std.specs.Prelude.{◌≡◌, ◌+◌, length};
ghost use Rattle.devices.specs.feeds.FeedState.{all_remaining};
ghost use Rattle.pit_compile.specs.Run.{Runs};
ghost use Rattle.pit_compile.specs.Sinks.{sink_states};
ghost use Rattle.pit_compile.specs.Starts.{SpendsStarts};
ghost use Rattle.pit_compile.specs.declared.running.TheConstants.{MAX_STARTS};
ghost use Rattle.plan_parts.specs.Destinations.{formulas_of};
ghost use Rattle.run_threads.specs.Refusing.{HasFailed};
ghost use Rattle.run_threads.specs.Starts.{none_spent};

use crate::compiling::{Compiled, compile_with_starts};
use crate::settings::Settings;
use crate::sink_writing::write_texts;
use crate::sinks::Sinks;
use devices::feeds::feed::Feed;
use devices::sinks::sink::Sink;
use lane::Gathered;
use plan_parts::formulas::destination::Destination;
use plan_parts::plan::Plan;
use plan_parts::ranges::{MAX_VALUERS, MAX_ZONES};
use refusals::refusal::Refusal;
use run_threads::Starts;
use std::alloc::Global;
use std::sync::Wait;
use std::thread::Threads;
use valuers::Gate;

/// The number of threads that a run may start: one for each zone file and each valuer, at the largest numbers of both.
pub const MAX_STARTS: u32 = MAX_ZONES as u32 + MAX_VALUERS as u32;

/// Reads and values the zone files on threads, builds the instance of the plan and these files, and writes the instance to
/// the sinks. Begins the sinks only after all blocks are known to be in different cells. Returns the messages that passed the
/// lane. Consumes the feeds.
///
/// # Errors
///
/// Returns the first that applies:
///
/// - an error of `compile` with a budget of `MAX_STARTS` starts. Every sink is unchanged.
/// - `SinkFailed` if a sink refused a call, or `OutOfMemory` in writing. The sinks before that sink hold their files. That
///   sink is unchanged, or begun with a prefix of its file. The sinks after it are unchanged.
pub fn run<R: Threads + Wait + Sync, F: Feed + Send + Drop, G: Gate + Sync, S: Sink>(
    rt: &R,
    alloc: Global,
    feeds: Vec<F>,
    plan: &Plan,
    destinations: &[Destination],
    settings: Settings,
    gate: &G,
    sinks: &mut Sinks<S>,
) -> Result<Gathered, Refusal>
    ensures { let states = sink_states S.state in Runs (record {
      plan = plan.now;
      formulas = formulas_of destinations.now;
      settings = settings;
      remainders = all_remaining F.state feeds.items;
      starts = MAX_STARTS;
    }) (HasFailed F.state feeds.items) (states sinks.old) (states sinks.new) result }
{
    run_limited(
        rt,
        alloc,
        feeds,
        plan,
        destinations,
        settings,
        MAX_STARTS,
        gate,
        sinks,
    )
}

/// Does what `run` does, but starts at most `starts` threads; a further start counts as refused.
pub fn run_limited<R: Threads + Wait + Sync, F: Feed + Send + Drop, G: Gate + Sync, S: Sink>(
    rt: &R,
    alloc: Global,
    feeds: Vec<F>,
    plan: &Plan,
    destinations: &[Destination],
    settings: Settings,
    starts: u32,
    gate: &G,
    sinks: &mut Sinks<S>,
) -> Result<Gathered, Refusal>
    ensures { let states = sink_states S.state in Runs (record {
      plan = plan.now;
      formulas = formulas_of destinations.now;
      settings = settings;
      remainders = all_remaining F.state feeds.items;
      starts = starts;
    }) (HasFailed F.state feeds.items) (states sinks.old) (states sinks.new) result }
{
    let mut starts = Starts::with_gate(rt, starts, gate);
    run_with_starts(
        alloc,
        feeds,
        plan,
        destinations,
        settings,
        &mut starts,
        sinks,
    )
}

/// Does what `run_limited` does, with thread starts and a gate that the caller lends. Afterwards `starts` shows what happened, as after
/// `compile_with_starts`.
pub fn run_with_starts<R: Threads + Wait + Sync, F: Feed + Send + Drop, G: Gate + Sync, S: Sink>(
    alloc: Global,
    feeds: Vec<F>,
    plan: &Plan,
    destinations: &[Destination],
    settings: Settings,
    starts: &mut Starts<'_, R, G>,
    sinks: &mut Sinks<S>,
) -> Result<Gathered, Refusal>
    requires unspent { starts.old ≡ none_spent starts.old.allowed }
    ensures runs { let states = sink_states S.state in Runs (record {
      plan = plan.now;
      formulas = formulas_of destinations.now;
      settings = settings;
      remainders = all_remaining F.state feeds.items;
      starts = starts.old.allowed;
    }) (HasFailed F.state feeds.items) (states sinks.old) (states sinks.new) result }

    // What was started.
    ensures spends { SpendsStarts (settings.valuers + length feeds.items) starts.old starts.new
        result }
{
    let Compiled { gathered, instance } = compile_with_starts(
        alloc,
        feeds,
        plan,
        destinations,
        settings,
        starts,
    )?;
    write_texts(alloc, &instance, sinks)?;
    Ok(gathered)
}
