//! The first half of a run: from zone files to the instance.

ghost use Rattle.std.specs.Prelude.{◌≡◌, ◌+◌, Err, length, IfErr, IfOk, IfSome};
ghost use Rattle.devices.specs.feeds.FeedState.{all_remaining};
ghost use Rattle.mine_instance.specs.Valid.{IsValid};
ghost use Rattle.pit_compile.specs.Compiling.{Compiles, IsCompiled, IsNotCompiled};
ghost use Rattle.pit_compile.specs.Starts.{refused_start, SpendsStarts};
ghost use Rattle.pit_compile.specs.Suits.{Suits};
ghost use Rattle.pit_compile.specs.inner.AfterStart.{IsAfterStart};
ghost use Rattle.pit_compile.specs.inner.ReadAnswers.{refusal_in};
ghost use Rattle.plan_parts.specs.Destinations.{formulas_of};
ghost use Rattle.plan_parts.specs.PlanFormulas.{formulas_of_plan};
ghost use Rattle.run_threads.specs.HandingOver.{IsHandedOver};
ghost use Rattle.run_threads.specs.Refusing.{HasFailed};
ghost use Rattle.run_threads.specs.Starts.{none_spent};

use crate::collecting::collect;
use crate::instance_building::instance_of_rows;
use crate::read_answers::require_read;
use crate::settings::{Budget, Settings, require_settings};
use devices::feeds::feed::Feed;
use lane::Gathered;
use mine_instance::instance::Instance;
use mine_instance::{LazyCoefs, LazyValues};
use pit_units::OrMemory;
use plan_parts::formulas::destination::Destination;
use plan_parts::plan::Plan;
use precedence::LazyPreds;
use refusals::refusal::Refusal;
use run_threads::{Allowance, GivenFeeds, HandedOver, NoThread, Starts, hand_over};
use std::alloc::Global;
use std::sync::Wait;
use std::thread::Threads;
use valuers::Gate;
use zone_csv::laws::zone_files;

/// What a run makes from zone files before it writes.
#[derive(Drop)]
pub struct Compiled {
    /// The messages that passed the lane.
    pub gathered: Gathered,
    /// The instance of the model. Its predecessors, coefficients and values are computed lazily.
    pub instance: Instance<LazyPreds, LazyCoefs, LazyValues>,
}

/// Reads and values the zone files on threads, and builds the instance of the plan and these files. Starts no more threads
/// than the budget allows. Consumes the feeds.
///
/// # Errors
///
/// Returns the first that applies:
///
/// - `Settings` with the first fault of the settings, in the order of `SettingsFault`;
/// - `OutOfMemory`: memory was refused before the first start;
/// - `NoThread`: the start of a thread was refused;
/// - `FeedFailed`, `TooLong`, `Row` or `OutOfMemory`: the error of the first file whose reader did not finish;
/// - `OutOfMemory`: a valuer was refused memory;
/// - `Same` with the first row in the cell of an earlier row, or `OutOfMemory` in collecting or numbering the rows;
/// - `OutOfMemory`: memory for the instance was refused.
pub fn compile<R: Threads + Wait + Sync, F: Feed + Send + Drop, G: Gate + Sync>(
    rt: &R,
    alloc: Global,
    feeds: Vec<F>,
    plan: &Plan,
    destinations: &[Destination],
    budget: Budget,
    gate: &G,
) -> Result<Compiled, Refusal>
    ensures { Compiles F.state plan.now (formulas_of destinations.now) budget.settings
        feeds.items budget.starts result }
{
    let Budget { settings, starts } = budget;
    let mut starts = Starts::with_gate(rt, starts, gate);
    compile_with_starts(alloc, feeds, plan, destinations, settings, &mut starts)
}

/// Does what `compile` does, with thread starts and a gate that the caller lends. Afterwards `starts` shows what happened: a thread was started
/// and joined for each valuer and each file, or a start was refused, or none was tried. Returns `NoThread` only if a start was refused.
pub fn compile_with_starts<R: Threads + Wait + Sync, F: Feed + Send + Drop, G: Gate + Sync>(
    alloc: Global,
    feeds: Vec<F>,
    plan: &Plan,
    destinations: &[Destination],
    settings: Settings,
    starts: &mut Starts<'_, R, G>,
) -> Result<Compiled, Refusal>
    requires unspent { starts.old ≡ none_spent starts.old.allowed }
    ensures compiles { Compiles F.state plan.now (formulas_of destinations.now) settings
        feeds.items starts.old.allowed result }

    // What was started.
    ensures spends { SpendsStarts (settings.valuers + length feeds.items) starts.old starts.new
        result }
{
    require_settings(feeds.len(), plan, destinations, settings)?;
    let allowance = Allowance {
        valuers: settings.valuers as u8,
        capacity: settings.capacity,
    };
    let (handed, given) = match hand_over(alloc, feeds, plan, destinations, allowance, starts) {
        Ok(made) => made,
        Err(fault) => return Err(refused_start(fault)),
    };
    compiled_of(alloc, plan, settings, handed, given)
}

// Returns the error of a run whose threads handed nothing over.
fn refused_start(fault: OrMemory<NoThread>) -> Refusal
    ensures { result ≡ refused_start fault }
{
    match fault {
        OrMemory::Fault(NoThread) => Refusal::NoThread,
        OrMemory::OutOfMemory => Refusal::OutOfMemory,
    }
}

// Builds the instance from what the threads handed over. If a reader did not finish, returns the error of the first such file, even if a
// valuer was refused memory. Only the contract uses `_settings` and `_given`, the feeds that the readers had.
fn compiled_of<F: Feed>(
    alloc: Global,
    plan: &Plan,
    _settings: Settings,
    handed: HandedOver,
    _given: GivenFeeds<F>,
) -> Result<Compiled, Refusal>
    requires fit { Suits plan.now (length _given) (formulas_of_plan plan.now) _settings }
    requires handed { IsHandedOver F.state plan.now _given _settings.valuers _settings.capacity
        handed _given }
    ensures done { IfOk result (IsCompiled plan.now (all_remaining F.state _given)
        _settings.valuers _settings.capacity) }
    ensures valid { IfOk result (λ made. IsValid made.instance) }

    // An error never concerns the settings or a thread start; if a reader did not finish, it is that reader's error.
    ensures following { IfErr result IsAfterStart }
    ensures files { IfSome (refusal_in 0 handed.answers.items) (λ refusal. result ≡ Err refusal) }
    ensures refused { IfErr result (IsNotCompiled plan.now (all_remaining F.state _given)
        (HasFailed F.state _given)) }
{
    zone_files();
    let HandedOver {
        gathered,
        items,
        memory,
        answers,
    } = handed;
    require_read(answers.as_slice())?;
    if memory {
        return Err(Refusal::OutOfMemory);
    }
    let rows = collect(alloc, &gathered, plan, items)?;
    let instance = instance_of_rows(alloc, rows, plan)?;
    Ok(Compiled { gathered, instance })
}
