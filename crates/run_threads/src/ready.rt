//! A run that is ready to start.

ghost use Rattle.std.specs.Prelude.{◌≡◌, length, vec_len};
ghost use Rattle.run_threads.specs.inner.Ready.{HasRoom, IsRoomFor};

use crate::opened::OpenedLane;
use crate::promises::{ReaderHandle, ValuerHandle};
use crate::result_room::ResultRoom;
use crate::shared::Shared;
use devices::feeds::feed::Feed;

/// A run that is ready to start: all memory is allocated, except the memory of its threads.
#[derive(Drop)]
pub struct Ready<'s, R, F: Feed, G> {
    pub shared: Shared<'s, R, G>,
    pub feeds: Vec<F>,
    pub lane: OpenedLane,
    pub valuers: Vec<ValuerHandle>,
    pub readers: Vec<ReaderHandle<F>>,
    pub room: ResultRoom,
    pub ghost files: { lane.closer.files ≡ length shared.plan.now.cones },
    pub ghost fed: { vec_len feeds ≡ lane.closer.files },
    pub ghost for_valuers: { HasRoom lane.closer.takers valuers },
    pub ghost for_readers: { HasRoom lane.closer.files readers },
    pub ghost room_for: { IsRoomFor lane.closer.files lane.closer.takers room },
}
