//! The end of a run whose threads have all started: they are joined, with their results.

ghost use Rattle.std.specs.Prelude.{◌≡◌, ◌+◌, map, vec_len};
ghost use Rattle.run_threads.specs.HandingOver.{IsHandedOver};
ghost use Rattle.run_threads.specs.inner.Started.{after_joins, after_marks};

use crate::handing_over::HandedOver;
use crate::in_scope::joining::{join_all, split_reads, split_values};
use crate::in_scope::running::Running;
use crate::result_room::ResultRoom;
use crate::starts::Starter;
use devices::feeds::feed::Feed;
use std::sync::Wait;
use std::thread::Threads;

/// Joins the readers, stops the lane, joins the valuers, and gathers their results.
pub fn settle<'s, E, T: Threads, R: Wait, F: Feed>(
    starter: &mut Starter<'s, E, T>,
    rt: &R,
    running: Running<F>,
) -> HandedOver
    requires unmarked { starter.old.marks ≡ 0 }
    requires unjoined { starter.old.joined ≡ 0 }
    requires readers { starter.old.readers ≡ vec_len running.readers }
    requires valuers { starter.old.spent ≡ vec_len running.readers + vec_len running.valuers }

    // These are the results for the feeds that the readers received. Each valuer was sent a mark, and each thread is joined.
    ensures handed { let given = map (λ h. h.promise.feed.value) running.readers.items in
        IsHandedOver F.state running.plan.value given
        running.closer.takers running.closer.lane.2 result given }
    ensures counted { starter.new
        ≡ after_joins (vec_len running.readers + vec_len running.valuers) (after_marks starter.old) }
{
    let Running {
        closer,
        readers,
        valuers,
        room,
        plan: _plan,
    } = running;
    let ResultRoom {
        reads,
        ended,
        answers,
        values,
        takers,
        items,
    } = room;
    let reads = join_all(starter, readers, reads, &closer);
    let (ended, answers) = split_reads(reads, ended, answers);
    let (stopped, marked) = starter.stop(rt, closer, ended);
    let values = join_all(starter, valuers, values, &marked);
    let (takers, items, memory) = split_values(values, takers, items);
    let gathered = stopped.gather(rt, takers);
    HandedOver {
        gathered,
        items,
        memory,
        answers,
    }
}
