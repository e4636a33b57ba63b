//! The closer of a lane. It stops the lane once every file has ended, or gives it up.

ghost use Rattle.std.specs.Prelude.{◌≡◌, ◌<◌, ◌≤◌, true, [], ◌∷◌, length, map};
ghost use Rattle.std.specs.List.{All, sum_by};
ghost use Rattle.crossbeam_channel.specs.Ends.{receives_on};
ghost use Rattle.lane.specs.MessageKinds.{is_done, row_count};
ghost use Rattle.lane.specs.Rule.{put_parts};
ghost use Rattle.lane.specs.EndFields.{sent_lists, taken_lists, capacity_of, marks_in, quits_in, closer_view, given_up_view, stopped_view};
ghost use Rattle.lane.specs.Ends.{ArePutsFrom, AreTakesFrom, CloserView, GivenUpView, StoppedView};
ghost use Rattle.lane.specs.inner.Kept.{IsChannelOf, IsJoined, IsStopping, IsAllIn, IsCloser};
ghost use Rattle.lane.specs.Whole.{IsWhole};

use crate::gathered::Gathered;
use crate::message::Taken;
use crate::part::Part;
use crate::put_end::EndedPut;
use crate::rule::Receiver;
use crate::seated::SeatedSender;
use crate::take_end::TakeEnd;
use std::marker::Model;
use std::sync::Wait;

/// The closer of a lane. Contracts see its lane and the numbers of files and takers.
#[derive(Drop)]
pub struct Closer {
    seat: SeatedSender,
    receiver: Receiver,
    files: u8,
    takers: u8,
}

impl Model for Closer {
    ghost Value = { CloserView };

    ghost view = { λ e. closer_view e.seat e.files e.takers };

    ghost invariant = { λ e. IsChannelOf e.seat.lane (receives_on e.receiver)
        × IsCloser e.seat.known e.files e.takers (capacity_of e.seat) };
}

impl Closer {
    // Creates the closer of a lane whose other parts were given away.
    pub(crate) fn new(seat: SeatedSender, receiver: Receiver, files: u8, takers: u8) -> Closer
        requires channel { IsChannelOf seat.lane (receives_on receiver) }
        requires part { seat.known ≡ Part.Close files takers (capacity_of seat) 0 0 ∷ [] }
        requires some_taker { 0 < takers }
        ensures value { result ≡ record { lane = seat.lane; files = files; takers = takers } }
    {
        Closer {
            seat,
            receiver,
            files,
            takers,
        }
    }

    /// The sender and the pass with which it stops the lane.
    pub fn seat(&self) -> &SeatedSender
        ensures { self.now ≡ closer_view result.now self.now.files self.now.takers }
    {
        &self.seat
    }

    /// Sends one Stop for each valuer. `puts` are the ended puts of all files of this lane, in order.
    pub fn stop<R: Wait>(self, rt: &R, puts: Vec<EndedPut>) -> Stopped
        requires puts { ArePutsFrom self.lane self.files 0 puts.items }
        ensures lane { result.lane ≡ self.lane }
        ensures takers { result.takers ≡ self.takers }
        ensures sent { result.sent ≡ map (λ put. put.sent) puts.items }
        ensures files { length result.sent ≡ self.files }
    {
        let Closer {
            mut seat,
            receiver,
            files,
            takers,
        } = self;
        let rows = join_puts(&mut seat, files, takers, puts);
        put_stops(rt, &mut seat, files, takers);
        Stopped {
            seat,
            receiver,
            takers,
            rows,
        }
    }

    /// Sends `n` Quit marks, each of which ends one valuer, and gives the lane up. A run does so if the start of a
    /// thread was refused.
    pub fn quit<R: Wait>(self, rt: &R, n: u8) -> GivenUp
        requires few { n ≤ self.takers }
        ensures lane { result.lane ≡ self.lane }
        ensures quits { result.quits ≡ n }
    {
        let Closer {
            mut seat,
            receiver: _receiver,
            files,
            takers,
        } = self;
        put_quits(rt, &mut seat, files, takers, n);
        GivenUp { seat }
    }
}

/// A lane that was given up. Contracts see the lane and the number of its Quit marks.
#[derive(Drop)]
pub struct GivenUp {
    seat: SeatedSender,
}

impl Model for GivenUp {
    ghost Value = { GivenUpView };

    ghost view = { λ e. given_up_view e.seat };

    ghost invariant = { λ e. marks_in e.seat.known ≡ quits_in e.seat.known };
}

impl GivenUp {
    /// The sender and the pass with which it gave the lane up.
    pub fn seat(&self) -> &SeatedSender
        ensures seen { self.now ≡ given_up_view result.now }
        ensures marks { marks_in result.now.known ≡ self.now.quits }
    {
        &self.seat
    }
}

// Joins the parts of the ended puts to the closer's. Returns the number of their rows.
fn join_puts(seat: &mut SeatedSender, files: u8, takers: u8, puts: Vec<EndedPut>) -> u64
    requires part { seat.old.known ≡ Part.Close files takers (capacity_of seat.old) 0 0 ∷ [] }
    requires puts { ArePutsFrom seat.old.lane files 0 puts.items }
    ensures lane { seat.new.lane ≡ seat.old.lane }
    ensures joined { IsJoined seat.new.known files takers (capacity_of seat.old) }
    ensures lists { sent_lists seat.new.known ≡ map (λ put. put.sent) puts.items }
    ensures rows { result ≡ sum_by row_count (sent_lists seat.new.known) }
{
    let mut rows = 0;
    for put in puts {
        rows += u64::from(put.join(seat));
    }
    rows
}

// Sends a Stop for each taker.
fn put_stops<R: Wait>(rt: &R, seat: &mut SeatedSender, files: u8, takers: u8)
    requires joined { IsJoined seat.old.known files takers (capacity_of seat.old) }
    ensures stopped { seat.new ≡ record seat.old {
      known = Part.Close files takers (capacity_of seat.old) takers 0
          ∷ put_parts (capacity_of seat.old) 0 (sent_lists seat.old.known);
    } }
{
    for _stop in 0..takers {
        seat.put(rt, Taken::Stop);
    }
}

// Sends `n` Quits.
fn put_quits<R: Wait>(rt: &R, seat: &mut SeatedSender, files: u8, takers: u8, n: u8)
    requires part { seat.old.known ≡ Part.Close files takers (capacity_of seat.old) 0 0 ∷ [] }
    requires few { n ≤ takers }
    ensures quits { seat.new ≡ record seat.old
        { known = Part.Close files takers (capacity_of seat.old) 0 n ∷ [] } }
{
    for _quit in 0..n {
        seat.put(rt, Taken::Quit);
    }
}

/// A lane that was stopped after every file had ended. Contracts see its lane, the number of takers and what each file
/// sent.
#[derive(Drop)]
pub struct Stopped {
    seat: SeatedSender,
    receiver: Receiver,
    takers: u8,
    rows: u64,
}

impl Model for Stopped {
    ghost Value = { StoppedView };

    ghost view = { λ e. stopped_view e.seat e.takers };

    ghost invariant = { λ e. IsChannelOf e.seat.lane (receives_on e.receiver)
        × IsStopping e.seat.known e.takers (capacity_of e.seat)
        × (e.rows ≡ sum_by row_count (sent_lists e.seat.known)) };
}

impl Stopped {
    /// The sender and the pass with which it stopped the lane.
    pub fn seat(&self) -> &SeatedSender
        ensures seen { self.now ≡ stopped_view result.now self.now.takers }
        ensures marks { marks_in result.now.known ≡ self.now.takers }
    {
        &self.seat
    }

    /// Gathers the messages that passed the lane, which are complete.
    ///
    /// `takes` are the take ends of all valuers of this lane, in order, and each of them is done. So the lane has no
    /// other end, and the one look of this call at the channel finds it empty.
    pub fn gather<R: Wait>(self, rt: &R, takes: Vec<TakeEnd>) -> Gathered
        requires takes { AreTakesFrom self.lane self.takers 0 takes.items }
        requires done { All (λ take. is_done take.took ≡ true) takes.items }
        ensures capacity { result.capacity ≡ self.lane.2 }
        ensures sent { result.sent ≡ self.sent }
        ensures took { result.took ≡ map (λ take. take.took) takes.items }
        ensures takers { length result.took ≡ self.takers }
        ensures whole { IsWhole result }
    {
        let Stopped {
            mut seat,
            receiver,
            takers,
            rows,
        } = self;
        join_takes(&mut seat, takers, takes);
        seat.look(rt, &receiver);
        Gathered::new(seat.into_pass(), rows)
    }
}

// Joins the parts of the take ends to the closer's.
fn join_takes(seat: &mut SeatedSender, takers: u8, takes: Vec<TakeEnd>)
    requires stopped { IsStopping seat.old.known takers (capacity_of seat.old) }
    requires takes { AreTakesFrom seat.old.lane takers 0 takes.items }
    requires done { All (λ take. is_done take.took ≡ true) takes.items }
    ensures lane { seat.new.lane ≡ seat.old.lane }
    ensures full { IsAllIn seat.new.known takers (capacity_of seat.old) }
    ensures sent { sent_lists seat.new.known ≡ sent_lists seat.old.known }
    ensures took { taken_lists seat.new.known ≡ map (λ take. take.took) takes.items }
{
    for take in takes {
        take.join(seat);
    }
}
