//! The end of a run's threads after a refused start.

ghost use Rattle.std.specs.Prelude.{◌≡◌, ◌+◌, ◌≤◌, vec_len};
ghost use Rattle.std.specs.List.{All};
ghost use Rattle.run_threads.specs.inner.Started.{after_joins, after_marks, valuers_in};

use crate::promises::{ReaderHandle, ValuerHandle};
use crate::starts::{RunPromise, Starter};
use devices::feeds::feed::Feed;
use lane::Closer;
use std::sync::Wait;
use std::thread::{Promise, PromisedHandle, Threads};

/// Ends the threads of a run after a refused start. The readers end first, since they wait for the valuers to take their rows; then the
/// valuers, since they wait for messages.
pub fn give_up<'s, E, T: Threads, R: Wait, F: Feed>(
    starter: &mut Starter<'s, E, T>,
    rt: &R,
    closer: Closer,
    readers: Vec<ReaderHandle<F>>,
    valuers: Vec<ValuerHandle>,
)
    requires puts { All (λ h. h.promise.end.value.lane ≡ closer.lane) readers.items }
    requires takes { All (λ h. h.promise.end.value.lane ≡ closer.lane) valuers.items }
    requires takers { vec_len valuers ≤ closer.takers }
    requires unmarked { starter.old.marks ≡ 0 }
    requires unjoined { starter.old.joined ≡ 0 }
    requires readers { starter.old.readers ≡ vec_len readers }
    requires valuers { starter.old.spent ≡ vec_len readers + vec_len valuers }
    ensures counted { starter.new
        ≡ after_joins (vec_len readers + vec_len valuers) (after_marks starter.old) }
{
    join_each(starter, readers, &closer);
    let ended = starter.quit(rt, closer);
    join_each(starter, valuers, &ended);
}

/// Joins each thread, and drops its result. `following` is the part of the lane that must exist before.
pub fn join_each<'s, E, T: Threads, A: Drop, P: Promise<A> + RunPromise>(
    starter: &mut Starter<'s, E, T>,
    handles: Vec<PromisedHandle<A, P>>,
    following: &P::After,
)
    requires running { starter.old.joined + vec_len handles ≤ starter.old.spent }
    requires lane { All (λ h. P.lane h.promise ≡ P.After.lane_of following.now) handles.items }
    requires ends { P.After.ends following.now (valuers_in starter.old) }
    ensures counted { starter.new ≡ after_joins (vec_len handles) starter.old }
{
    for handle in handles {
        drop(starter.join(handle, following));
    }
}
