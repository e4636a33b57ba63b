//! A run whose threads have all started.

ghost use Rattle.std.specs.Prelude.{◌≡◌, map, vec_len};
ghost use Rattle.std.specs.List.{All};
ghost use Rattle.lane.specs.Ends.{first_puts, first_takes};
ghost use Rattle.run_threads.specs.inner.Ready.{IsRoomFor};

use crate::promises::{ReaderHandle, ValuerHandle};
use crate::result_room::ResultRoom;
use devices::feeds::feed::Feed;
use lane::Closer;
use plan_parts::plan::Plan;
use std::snapshot::Snapshot;

/// A run whose threads have all started. They hold all ends of the lane, work by one plan, and there is capacity for their results.
#[derive(Drop)]
pub struct Running<F: Feed> {
    pub closer: Closer,
    pub readers: Vec<ReaderHandle<F>>,
    pub valuers: Vec<ValuerHandle>,
    pub room: ResultRoom,
    /// The plan, for contracts alone.
    pub plan: Snapshot<Plan>,
    pub ghost ends: { map (λ h. h.promise.end.value) readers.items
        ≡ first_puts closer.lane 0 closer.files },
    pub ghost takes: { map (λ h. h.promise.end.value) valuers.items
        ≡ first_takes closer.lane 0 closer.takers },
    pub ghost read_plans: { All (λ h. h.promise.plan.value ≡ plan.value) readers.items },
    pub ghost valuer_plans: { All (λ h. h.promise.plan.value ≡ plan.value) valuers.items },
    pub ghost as_many_readers: { vec_len readers ≡ closer.files },
    pub ghost as_many_valuers: { vec_len valuers ≡ closer.takers },
    pub ghost room_for: { IsRoomFor closer.files closer.takers room },
}
