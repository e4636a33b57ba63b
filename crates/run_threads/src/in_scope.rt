//! The threads of a run within a scope, from the first start to the last join.

ghost use Rattle.std.specs.Prelude.{◌≡◌, vec_len, IfOk};
ghost use Rattle.run_threads.specs.Starts.{none_spent};
ghost use Rattle.run_threads.specs.inner.Started.{StartsInScope};
ghost use Rattle.run_threads.specs.HandingOver.{IsHandedOver};

use crate::handing_over::{HandedOver, NoThread};
use crate::in_scope::giving_up::give_up;
use crate::in_scope::running::Running;
use crate::in_scope::settling::settle;
use crate::in_scope::starting::{start_readers, start_valuers};
use crate::opened::OpenedLane;
use crate::ready::Ready;
use crate::starts::{Counted, GivenFeeds, Starter};
use devices::feeds::feed::Feed;
use std::snapshot::Snapshot;
use std::sync::Wait;
use std::thread::Threads;
use valuers::Gate;

pub mod giving_up;
pub mod joining;
pub mod running;
pub mod settling;
pub mod starting;

/// The results of the threads of a scope, all of them joined, with the feeds that the readers received, and the remaining thread starts.
#[derive(Drop)]
pub struct Settled<F: Feed> {
    pub handed: Result<(HandedOver, GivenFeeds<F>), NoThread>,
    pub starts: Counted,
}

/// Starts the valuers and then the readers of a run, and joins them. After a refused start, ends the threads that run.
pub fn hand_over_in<'s, E, T: Threads, R: Wait + Sync, F: Feed + Send + Drop + 's, G: Gate + Sync>(
    mut starter: Starter<'s, E, T>,
    ready: Ready<'s, R, F, G>,
) -> Settled<F>
    requires unspent { starter ≡ none_spent starter.allowed }
    ensures handed { IfOk result.handed (λ made. IsHandedOver F.state
        ready.entry.shared.plan.now ready.entry.feeds.items ready.entry.lane.closer.takers
        ready.entry.lane.closer.lane.2 made.0 made.1) }

    // One thread was started for each valuer and each file, or a start was refused; the valuers first. Each valuer was sent a mark, and each
    // thread is joined.
    ensures spends { StartsInScope ready.entry.lane.closer.takers (vec_len ready.entry.feeds)
        starter.entry result.starts result.handed }
{
    let Ready {
        shared,
        feeds,
        lane,
        valuers,
        readers,
        room,
    } = ready;
    let OpenedLane {
        closer,
        puts,
        takes,
    } = lane;
    let valuers = start_valuers(&shared, &mut starter, takes, valuers);
    if valuers.refused {
        give_up(&mut starter, shared.rt, closer, readers, valuers.handles);
        return Settled {
            handed: Err(NoThread),
            starts: starter.end(),
        };
    }
    let readers = start_readers(&shared, &mut starter, feeds, puts, readers);
    if readers.refused {
        give_up(
            &mut starter,
            shared.rt,
            closer,
            readers.handles,
            valuers.handles,
        );
        return Settled {
            handed: Err(NoThread),
            starts: starter.end(),
        };
    }
    let given = GivenFeeds::of(&readers.handles);
    let running = Running {
        closer,
        readers: readers.handles,
        valuers: valuers.handles,
        room,
        plan: Snapshot::of(shared.plan),
    };
    let handed = settle(&mut starter, shared.rt, running);
    Settled {
        handed: Ok((handed, given)),
        starts: starter.end(),
    }
}
