//! The threads of a run, from the first start to the last join.

ghost use Rattle.std.specs.Prelude.{◌≡◌, ◌≤◌, length, vec_len, IfOk};
ghost use Rattle.plan_parts.specs.OfPlan.{AreOfPlan};
ghost use Rattle.run_threads.specs.HandingOver.{IsHandedOver};
ghost use Rattle.run_threads.specs.Starts.{none_spent, StartsThreads};
ghost use Rattle.run_threads.specs.inner.Started.{StartsInScope};
ghost use Rattle.pit_units.specs.declared.or_memory.OrMemory.TheVariants.{Fault};
ghost use Rattle.plan_parts.specs.declared.ranges.TheConstants.{MAX_CAPACITY, MAX_VALUERS};

use crate::in_scope::{Settled, hand_over_in};
use crate::opened::open_lane;
use crate::read_result::ReadResult;
use crate::ready::Ready;
use crate::result_room::room_for;
use crate::shared::Shared;
use crate::starts::{GivenFeeds, Starter, Starts};
use devices::feeds::feed::Feed;
use lane::Gathered;
use pit_units::OrMemory;
use plan_parts::formulas::destination::Destination;
use plan_parts::plan::Plan;
use rows::PackedItems;
use std::alloc::Global;
use std::sync::Wait;
use std::thread;
use std::thread::Threads;
use thiserror::Error;
use valuers::Gate;

/// The number of valuers of a run, and the capacity of its lane.
#[derive(Clone, Copy)]
pub struct Allowance {
    /// The number of valuers, 1 to 64.
    pub valuers: u8,
    /// The number of messages that the lane can hold, 1 to 4,096.
    pub capacity: usize,
}

/// The results of the threads of a run.
#[derive(Drop)]
pub struct HandedOver {
    /// The messages that passed the lane.
    pub gathered: Gathered,
    /// The items of each valuer, in the order of the valuers.
    pub items: Vec<PackedItems>,
    /// Whether a valuer was refused memory. That valuer dropped everything that it took afterwards.
    pub memory: bool,
    /// The result of each file's reader, in the order of the files.
    pub answers: Vec<ReadResult>,
}

/// The start of a thread was refused.
#[derive(Clone, Copy, Debug, Error, PartialEq, Eq)]
#[error("NoThread")]
pub struct NoThread;

impl From<NoThread> for OrMemory<NoThread> {
    ghost from_gives = { λ _ error. error ≡ Fault record {} };

    fn from(refused: NoThread) -> OrMemory<NoThread> {
        OrMemory::Fault(refused)
    }
}

/// Reads each file on its own thread into a lane; the valuers, each on its own thread, take the rows and value them. The
/// valuers start first. Every thread uses one of `starts`, and calls the gate of `starts`. No thread is cancelled: every reader
/// runs to the end of its file or to its first fault. Each feed is consumed by the thread that receives it.
///
/// # Errors
///
/// - `NoThread`: a start was refused. No further thread was started, and every started thread was joined.
/// - `OutOfMemory`: memory was refused before the first start.
pub fn hand_over<R: Threads + Wait + Sync, F: Feed + Send + Drop, G: Gate + Sync>(
    alloc: Global,
    feeds: Vec<F>,
    plan: &Plan,
    destinations: &[Destination],
    allowance: Allowance,
    starts: &mut Starts<'_, R, G>,
) -> Result<(HandedOver, GivenFeeds<F>), OrMemory<NoThread>>
    requires files { length feeds.items ≡ length plan.now.cones }
    requires valuers { (1 ≤ allowance.valuers) × (allowance.valuers ≤ MAX_VALUERS) }
    requires capacity { (1 ≤ allowance.capacity) × (allowance.capacity ≤ MAX_CAPACITY) }
    requires destinations { AreOfPlan destinations.now plan.now }
    requires unspent { starts.old ≡ none_spent starts.old.allowed }

    // The files were read, their rows were valued, by this number of threads and through a lane of this capacity.
    ensures handed { IfOk result (λ made. IsHandedOver F.state plan.now feeds.items
        allowance.valuers allowance.capacity made.0 made.1) }

    // A thread was started for each valuer and each file, or a start was refused, or none was tried. The valuers start first. Each valuer
    // was sent a mark, and each thread is joined.
    ensures spends { StartsThreads allowance.valuers (length feeds.items) starts.old starts.new
        result }
{
    let rt = starts.runtime();
    let files = plan.cones().len() as u8;
    let lane = open_lane(alloc, files, allowance.valuers, allowance.capacity)?;
    let ready = Ready {
        shared: Shared {
            rt,
            alloc,
            plan,
            destinations,
            gate: starts.gate(),
        },
        room: room_for(alloc, lane.puts.len(), lane.takes.len())?,
        valuers: Vec::with_capacity(alloc, lane.takes.len())?,
        readers: Vec::with_capacity(alloc, lane.puts.len())?,
        feeds,
        lane,
    };
    let borrowed = starts.borrow_counts();
    let Settled {
        handed,
        starts: remaining,
    } = thread::scope(
        thread::scope_env(),
        rt,
        move |scope| -> Settled<F>
            requires unspent { borrowed ≡ none_spent borrowed.allowed }
            ensures handed { IfOk result.handed (λ made. IsHandedOver F.state
                ready.entry.shared.plan.now ready.entry.feeds.items ready.entry.lane.closer.takers
                ready.entry.lane.closer.lane.2 made.0 made.1) }
            ensures spends { StartsInScope ready.entry.lane.closer.takers
                (vec_len ready.entry.feeds) borrowed result.starts result.handed }
        { hand_over_in(Starter::new(scope, rt, borrowed), ready) },
    );
    starts.give_back(remaining);
    Ok(handed?)
}
