//! An end of the lane's channel with the pass that it shows, and what the two do together: one send, one receive, and
//! the steps in which parts are made, passed on and joined. A send or receive is tried a few times before its thread
//! sleeps, and again after it is woken.

ghost use Rattle.std.specs.Prelude.{ℕ, ◌≡◌, ◌<◌, ◌++◌, true, false, None, IfOk, OnOk, IfSome, OnSome};
ghost use Rattle.crossbeam_channel.specs.Claims.{view as known_by, IsSeatAt};
ghost use Rattle.crossbeam_channel.specs.Ends.{sends_on, receives_on};
ghost use Rattle.crossbeam_channel.specs.Fifo.{Forks};
ghost use Rattle.lane.specs.Rule.{IsLane};
ghost use Rattle.lane.specs.Whole.{IsWhole};
ghost use Rattle.lane.specs.Steps.{with_message, MaySend, MayTake};
ghost use Rattle.lane.specs.EndFields.{gathering_in, took_in, seated, capacity_of, SeatView};
ghost use Rattle.lane.specs.inner.Views.{IsOrdered, without_second, second_alone};
ghost use Rattle.lane.specs.inner.Kept.{IsChannelOf, MayGive, IsClosers, IsAllIn};

use crate::bells::Bells;
use crate::message::Taken;
use crate::rule::{Gives, Joins, Looks, Parts, Receiver, Receives, Seat, Sender, Sends};
use crossbeam_channel::protocol::Split;
use std::alloc::{AllocError, Global};
use std::hint;
use std::marker::Model;
use std::sync::{Arc, Wait};

// How often a call is tried before its thread may sleep. Sleeping and waking costs about as much as the pauses between
// these tries, each twice as long as the one before.
const TRIES: u32 = 8;

/// A sender and its pass. Contracts see its lane and what it knows.
#[derive(Drop)]
pub struct SeatedSender {
    sender: Sender,
    pass: Seat,
    bells: Arc<Bells, Global>,
}

impl Model for SeatedSender {
    ghost Value = { SeatView };

    ghost view = { λ e. seated (sends_on e.sender) e.pass };

    ghost invariant = { λ e. IsSeatAt (sends_on e.sender) e.pass };
}

impl SeatedSender {
    /// A sender with the pass of its seat, and the bells of the lane.
    pub(crate) fn new(sender: Sender, pass: Seat, bells: Arc<Bells, Global>) -> SeatedSender
        requires seat { IsSeatAt (sends_on sender) pass }
        ensures value { result ≡ seated (sends_on sender) pass }
    {
        SeatedSender {
            sender,
            pass,
            bells,
        }
    }

    /// The sender and its pass, which has a seat of the sender's channel.
    pub fn parts(&self) -> (&Sender, &Seat)
        ensures seat { IsSeatAt (sends_on result.0.now) result.1.now }
        ensures seen { self.now ≡ seated (sends_on result.0.now) result.1.now }
    {
        (&self.sender, &self.pass)
    }

    /// The pass alone.
    pub(crate) fn into_pass(self) -> Seat
        ensures known { known_by result ≡ self.known }
    {
        self.pass
    }

    /// Replaces the view by its new parts. The pass that is split off knows nothing.
    pub(crate) fn split<M: Split<Parts>>(&mut self)
        requires rule { (pass : ℕ) → Forks IsLane pass self.old.known (M.left self.old.known)
            (M.right self.old.known) }
        ensures made { self.new ≡ record self.old { known = M.left self.old.known } }
    {
        let _spent = self.sender.another::<M>(&mut self.pass);
    }

    /// The part after the closer's, with its own sender.
    pub(crate) fn give_sender(&mut self) -> Result<SeatedSender, AllocError>
        requires may { MayGive self.old.known }
        ensures remaining { OnOk result (self.new
            ≡ record self.old { known = without_second self.old.known }) }
        ensures given { IfOk result (λ end. end
            ≡ record self.old { known = second_alone self.old.known }) }
    {
        let sender = self.sender.try_clone()?;
        let bells = Arc::try_clone(&self.bells)?;
        let pass = self.sender.another::<Gives>(&mut self.pass);
        Ok(SeatedSender {
            sender,
            pass,
            bells,
        })
    }

    /// The part after the closer's, with its own receiver.
    pub(crate) fn give_receiver(
        &mut self,
        receiver: &Receiver,
    ) -> Result<SeatedReceiver, AllocError>
        requires channel { IsChannelOf self.old.lane (receives_on receiver.now) }
        requires may { MayGive self.old.known }
        ensures remaining { OnOk result (self.new
            ≡ record self.old { known = without_second self.old.known }) }
        ensures given { IfOk result (λ end. end
            ≡ record self.old { known = second_alone self.old.known }) }
    {
        let receiver = receiver.try_clone()?;
        let bells = Arc::try_clone(&self.bells)?;
        let pass = self.sender.another::<Gives>(&mut self.pass);
        Ok(SeatedReceiver {
            receiver,
            pass,
            bells,
        })
    }

    /// Takes over the parts of another sender of the lane.
    #[tactic(auto, using(crate::proofs::Rules::joins))]
    pub(crate) fn join_sender(&mut self, other: SeatedSender)
        requires lane { other.lane ≡ self.old.lane }
        requires closer { IsClosers self.old.known }
        ensures joined { self.new ≡ record self.old { known = self.old.known ++ other.known } }
    {
        let SeatedSender { pass, .. } = other;
        self.sender.absorb::<Joins>(&mut self.pass, pass);
    }

    /// Takes over the parts of a receiver of the lane.
    #[tactic(auto, using(crate::proofs::Rules::joins))]
    pub(crate) fn join_receiver(&mut self, other: SeatedReceiver)
        requires lane { other.lane ≡ self.old.lane }
        requires closer { IsClosers self.old.known }
        ensures joined { self.new ≡ record self.old { known = self.old.known ++ other.known } }
    {
        let SeatedReceiver { pass, .. } = other;
        self.sender.absorb::<Joins>(&mut self.pass, pass);
    }

    /// Sends the message.
    pub(crate) fn put<R: Wait>(&mut self, rt: &R, message: Taken)
        requires may { MaySend (capacity_of self.old) self.old.known message }
        ensures sent { self.new ≡ record self.old { known = with_message self.old.known message } }
    {
        for _ in rt.forever() {
            if self.put_soon(rt, message) || self.put_or_sleep(rt, message) {
                break;
            }
        }
    }

    // Tries to send the message, never sleeps, and returns whether the message was sent.
    fn put_soon<R: Wait>(&mut self, rt: &R, message: Taken) -> bool
        requires may { MaySend (capacity_of self.old) self.old.known message }
        ensures sent { result ≡ true → self.new
            ≡ record self.old { known = with_message self.old.known message } }
        ensures kept { result ≡ false → self.new ≡ self.old }
    {
        for turn in 0..TRIES {
            if self.try_put(rt, message) {
                return true;
            }
            pause(turn);
        }
        false
    }

    // Tries once more to send the message. If it cannot, sleeps until a message was taken. Returns whether the message
    // was sent.
    fn put_or_sleep<R: Wait>(&mut self, rt: &R, message: Taken) -> bool
        requires may { MaySend (capacity_of self.old) self.old.known message }
        ensures sent { result ≡ true → self.new
            ≡ record self.old { known = with_message self.old.known message } }
        ensures kept { result ≡ false → self.new ≡ self.old }
    {
        let heard = self.bells.takes.listen();
        let is_sent = self.try_put(rt, message);
        if !is_sent {
            self.bells.takes.sleep(rt, heard);
        }
        self.bells.takes.leave();
        is_sent
    }

    // Tries once to send the message, and returns whether it was sent.
    fn try_put<R: Wait>(&mut self, rt: &R, message: Taken) -> bool
        requires may { MaySend (capacity_of self.old) self.old.known message }
        ensures sent { result ≡ true → self.new
            ≡ record self.old { known = with_message self.old.known message } }
        ensures kept { result ≡ false → self.new ≡ self.old }
    {
        if self
            .sender
            .try_send_as::<Sends, R>(rt, &mut self.pass, message)
            .is_ok()
        {
            self.bells.puts.ring();
            return true;
        }
        false
    }

    /// Looks once at a lane that is done: its queue is empty, so the lane is complete.
    pub(crate) fn look<R: Wait>(&mut self, rt: &R, receiver: &Receiver)
        requires channel { IsChannelOf self.old.lane (receives_on receiver.now) }
        requires full { (takers : ℕ) × IsAllIn self.old.known takers (capacity_of self.old) }
        ensures kept { self.new ≡ self.old }
        ensures whole { IsWhole (gathering_in self.new.known) }
    {
        if receiver.try_recv_as::<Looks, R>(rt, &mut self.pass).is_ok() {
            unreachable!();
        }
    }
}

/// A receiver and its pass. Contracts see its lane and what it knows.
#[derive(Drop)]
pub struct SeatedReceiver {
    receiver: Receiver,
    pass: Seat,
    bells: Arc<Bells, Global>,
}

impl Model for SeatedReceiver {
    ghost Value = { SeatView };

    ghost view = { λ e. seated (receives_on e.receiver) e.pass };

    ghost invariant = { λ e. IsSeatAt (receives_on e.receiver) e.pass };
}

impl SeatedReceiver {
    /// The receiver and its pass, which has a seat of the receiver's channel.
    pub fn parts(&self) -> (&Receiver, &Seat)
        ensures seat { IsSeatAt (receives_on result.0.now) result.1.now }
        ensures seen { self.now ≡ seated (receives_on result.0.now) result.1.now }
    {
        (&self.receiver, &self.pass)
    }

    /// Takes the next message.
    pub(crate) fn take<R: Wait>(&mut self, rt: &R) -> Taken
        requires may { MayTake self.old.known }
        ensures took { self.new ≡ record self.old { known = with_message self.old.known result } }
        ensures ordered { IsOrdered (took_in self.new.known) }
    {
        for _ in rt.forever() {
            if let Some(message) = self.take_soon(rt) {
                return message;
            }
            if let Some(message) = self.take_or_sleep(rt) {
                return message;
            }
        }
        unreachable!()
    }

    // Tries to take the next message, and never sleeps.
    fn take_soon<R: Wait>(&mut self, rt: &R) -> Option<Taken>
        requires may { MayTake self.old.known }
        ensures took { IfSome result (λ message. self.new
            ≡ record self.old { known = with_message self.old.known message }) }
        ensures ordered { OnSome result (IsOrdered (took_in self.new.known)) }
        ensures kept { result ≡ None → self.new ≡ self.old }
    {
        for turn in 0..TRIES {
            if let Some(message) = self.try_take(rt) {
                return Some(message);
            }
            pause(turn);
        }
        None
    }

    // Tries once more to take the next message. If there is none, sleeps until one was put.
    fn take_or_sleep<R: Wait>(&mut self, rt: &R) -> Option<Taken>
        requires may { MayTake self.old.known }
        ensures took { IfSome result (λ message. self.new
            ≡ record self.old { known = with_message self.old.known message }) }
        ensures ordered { OnSome result (IsOrdered (took_in self.new.known)) }
        ensures kept { result ≡ None → self.new ≡ self.old }
    {
        let heard = self.bells.puts.listen();
        let taken = self.try_take(rt);
        if taken.is_none() {
            self.bells.puts.sleep(rt, heard);
        }
        self.bells.puts.leave();
        taken
    }

    // Tries once to take the next message.
    fn try_take<R: Wait>(&mut self, rt: &R) -> Option<Taken>
        requires may { MayTake self.old.known }
        ensures took { IfSome result (λ message. self.new
            ≡ record self.old { known = with_message self.old.known message }) }
        ensures ordered { OnSome result (IsOrdered (took_in self.new.known)) }
        ensures kept { result ≡ None → self.new ≡ self.old }
    {
        if let Ok(message) = self.receiver.try_recv_as::<Receives, R>(rt, &mut self.pass) {
            self.bells.takes.ring();
            return Some(message);
        }
        None
    }
}

// Pauses for a moment without giving the processor away, since that would mean waiting for all others that want it.
fn pause(turn: u32)
    requires few { turn < TRIES }
{
    for _ in 0..1u32 << turn {
        hint::spin_loop();
    }
}
