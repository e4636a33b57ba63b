//! The end of the lane that a valuer takes from.

ghost use Rattle.std.specs.Prelude.{◌≡◌, false, ◌++◌, [], ◌∷◌};
ghost use Rattle.lane.specs.EndFields.{capacity_of, take_end_view, took_in};
ghost use Rattle.lane.specs.inner.Kept.{IsClosers, IsTake};
ghost use Rattle.lane.specs.Message.{Rises};
ghost use Rattle.lane.specs.MessageKinds.{is_done, ends_in_mark};
ghost use Rattle.lane.specs.MessageOrders.{EndsClose, MarksLast};
ghost use Rattle.lane.specs.Ends.{TakeEndView};

use crate::message::Taken;
use crate::part::Part;
use crate::seated::{SeatedReceiver, SeatedSender};
use std::marker::Model;
use std::sync::Wait;

/// The take end of one valuer. Contracts see its lane, its number and the list of what it took.
#[derive(Drop)]
pub struct TakeEnd {
    seat: SeatedReceiver,
    taker: u8,
    done: bool,
}

impl Model for TakeEnd {
    ghost Value = { TakeEndView };

    ghost view = { λ e. take_end_view e.seat e.taker };

    ghost invariant = { λ e. IsTake e.seat.known e.taker (capacity_of e.seat)
        × (e.done ≡ is_done (took_in e.seat.known)) };
}

impl TakeEnd {
    // Creates a take end that has taken nothing.
    pub(crate) fn new(seat: SeatedReceiver, taker: u8) -> TakeEnd
        requires part { seat.known ≡ Part.Take taker (capacity_of seat) [] ∷ [] }
        ensures value { result ≡ record { lane = seat.lane; taker = taker; took = [] } }
    {
        TakeEnd {
            seat,
            taker,
            done: false,
        }
    }

    /// Takes the next message of the lane. A take end that took Stop or Quit is done, and takes no more.
    pub fn take<R: Wait>(&mut self, rt: &R) -> Taken
        requires undone { is_done self.old.took ≡ false }
        ensures took { self.new ≡ record self.old { took = self.old.took ++ result ∷ [] } }
        ensures rises { Rises self.new.took }
        ensures ends { EndsClose self.new.took }
        ensures marks { MarksLast self.new.took }
    {
        let message = self.seat.take(rt);
        self.done = matches!(message, Taken::Stop | Taken::Quit);
        message
    }

    /// The receiver and the pass with which it takes.
    pub fn seat(&self) -> &SeatedReceiver
        ensures { self.now ≡ take_end_view result.now self.now.taker }
    {
        &self.seat
    }

    /// Whether Stop or Quit was taken. If so, it was the last message taken.
    pub fn is_done(&self) -> bool
        ensures took { result ≡ is_done self.now.took }
        ensures last { result ≡ ends_in_mark self.now.took }
    {
        self.done
    }

    // Passes the end's part to the closer.
    pub(crate) fn join(self, closer: &mut SeatedSender)
        requires closer { IsClosers closer.old.known }
        requires lane { self.lane ≡ closer.old.lane }
        ensures joined { closer.new ≡ record closer.old {
          known = closer.old.known
              ++ Part.Take self.taker (capacity_of closer.old) self.took ∷ [];
        } }
    {
        closer.join_receiver(self.seat);
    }
}
