//! The end of the lane that a file's reader puts its rows into.

ghost use Rattle.std.specs.Prelude.{◌≡◌, ◌<◌, ◌≤◌, ◌++◌, true, [], ◌∷◌, length};
ghost use Rattle.lane.specs.EndFields.{capacity_of, put_end_view};
ghost use Rattle.lane.specs.inner.Kept.{IsClosers, IsOpenPut, IsEndedPut};
ghost use Rattle.lane.specs.Message.{IsEndedFrom};
ghost use Rattle.lane.specs.MessageKinds.{has_end, row_count};
ghost use Rattle.plan_parts.specs.declared.ranges.TheConstants.{MAX_ROWS};
ghost use Rattle.lane.specs.Ends.{PutEndView};

use crate::message::Taken;
use crate::part::Part;
use crate::seated::SeatedSender;
use plan_parts::block::Block;
use std::marker::Model;
use std::sync::Wait;

/// The put end of one file. Contracts see its lane, its file and the list of what it sent, which has only rows.
#[derive(Drop)]
pub struct PutEnd {
    seat: SeatedSender,
    file: u8,
    rows: u32,
}

impl Model for PutEnd {
    ghost Value = { PutEndView };

    ghost view = { λ e. put_end_view e.seat e.file };

    ghost invariant = { λ e. IsOpenPut e.seat.known e.file (capacity_of e.seat) e.rows };
}

impl PutEnd {
    // Creates a put end that has sent nothing.
    pub(crate) fn new(seat: SeatedSender, file: u8) -> PutEnd
        requires part { seat.known ≡ Part.Put file (capacity_of seat) [] ∷ [] }
        ensures value { result ≡ record { lane = seat.lane; file = file; sent = [] } }
    {
        PutEnd {
            seat,
            file,
            rows: 0,
        }
    }

    /// Sends the block as the file's next row, whose place is the number of rows sent before. At most 1,000,000 rows
    /// may be sent.
    pub fn row<R: Wait>(&mut self, rt: &R, block: Block)
        requires few { length self.old.sent < MAX_ROWS }
        ensures sent { self.new ≡ record self.old
            { sent = self.old.sent ++ Taken.Row self.old.file (length self.old.sent) block ∷ [] } }
    {
        let message = Taken::Row {
            file: self.file,
            place: self.rows,
            block,
        };
        self.seat.put(rt, message);
        self.rows += 1;
    }

    /// The sender and the pass with which it sends.
    pub fn seat(&self) -> &SeatedSender
        ensures { self.now ≡ put_end_view result.now self.now.file }
    {
        &self.seat
    }

    /// The number of rows sent.
    pub fn rows(&self) -> u32
        ensures rows { result ≡ row_count self.now.sent }
        ensures places { result ≡ length self.now.sent }
    {
        self.rows
    }

    /// Sends the end mark with the number of rows. Nothing can be sent for the file after it.
    pub fn end<R: Wait>(self, rt: &R) -> EndedPut
        ensures sent { result ≡ record self
            { sent = self.sent ++ Taken.End self.file (row_count self.sent) ∷ [] } }
        ensures places { result ≡ record self
            { sent = self.sent ++ Taken.End self.file (length self.sent) ∷ [] } }
        ensures ended { IsEndedFrom result.file 0 result.sent }
    {
        let PutEnd {
            mut seat,
            file,
            rows,
        } = self;
        seat.put(rt, Taken::End { file, rows });
        EndedPut { seat, file, rows }
    }
}

/// A put end whose file has ended. Contracts see its lane, its file and the list of what it sent.
#[derive(Drop)]
pub struct EndedPut {
    seat: SeatedSender,
    file: u8,
    rows: u32,
}

impl Model for EndedPut {
    ghost Value = { PutEndView };

    ghost view = { λ e. put_end_view e.seat e.file };

    ghost invariant = { λ e. IsEndedPut e.seat.known e.file (capacity_of e.seat) e.rows };
}

impl EndedPut {
    // Passes the end's part to the closer, and returns the number of rows.
    pub(crate) fn join(self, closer: &mut SeatedSender) -> u32
        requires closer { IsClosers closer.old.known }
        requires lane { self.lane ≡ closer.old.lane }
        ensures joined { closer.new ≡ record closer.old {
          known = closer.old.known
              ++ Part.Put self.file (capacity_of closer.old) self.sent ∷ [];
        } }
        ensures ended { has_end self.sent ≡ true }
        ensures rows { result ≡ row_count self.sent }
        ensures few { result ≤ MAX_ROWS }
    {
        closer.join_sender(self.seat);
        self.rows
    }
}
