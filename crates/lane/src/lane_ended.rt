//! A lane whose valuers were sent marks.

ghost use Rattle.std.specs.Prelude.{◌≡◌};
ghost use Rattle.lane.specs.EndFields.{ended_view};
ghost use Rattle.lane.specs.Ends.{EndedView};

use crate::closer::{GivenUp, Stopped};
use crate::seated::SeatedSender;
use std::marker::Model;
use std::snapshot::Snapshot;

/// Proof that marks were sent into a lane: a Stop for each valuer, or Quits. Each mark ends one valuer. Only a lane that was stopped or given
/// up makes one. Contracts see the lane and the number of marks.
#[derive(Drop)]
pub struct LaneEnded {
    seat: Snapshot<SeatedSender>,
}

impl Model for LaneEnded {
    ghost Value = { EndedView };

    ghost view = { λ ended. ended_view ended.seat.value };
}

impl LaneEnded {
    /// The lane was stopped.
    pub fn by_stop(stopped: &Stopped) -> LaneEnded
        ensures { result ≡ record { lane = stopped.now.lane; marks = stopped.now.takers } }
    {
        LaneEnded {
            seat: Snapshot::of(stopped.seat()),
        }
    }

    /// The lane was given up.
    pub fn by_quits(quits: &GivenUp) -> LaneEnded
        ensures { result ≡ record { lane = quits.now.lane; marks = quits.now.quits } }
    {
        LaneEnded {
            seat: Snapshot::of(quits.seat()),
        }
    }
}
