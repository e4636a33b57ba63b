//! The messages that passed a lane.

ghost use Rattle.std.specs.Prelude.{◌≡◌};
ghost use Rattle.std.specs.List.{sum_by};
ghost use Rattle.crossbeam_channel.specs.Claims.{view as known_by};
ghost use Rattle.lane.specs.MessageKinds.{row_count};
ghost use Rattle.lane.specs.EndFields.{gathering_in, sent_lists, gathered_view};
ghost use Rattle.lane.specs.Whole.{IsWhole, GatheredView};
ghost use Rattle.lane.specs.inner.Kept.{IsGathered};

use crate::rule::Seat;
use std::marker::Model;

/// The messages that passed a lane, complete. Contracts see what each file sent and what each taker took. Only this crate can make one.
#[derive(Drop)]
pub struct Gathered {
    pass: Seat,
    rows: u64,
}

impl Model for Gathered {
    ghost Value = { GatheredView };

    ghost view = { λ g. gathered_view g.pass };

    ghost invariant = { λ g. IsGathered (known_by g.pass) g.rows };
}

impl Gathered {
    pub(crate) fn new(pass: Seat, rows: u64) -> Gathered
        requires whole { IsWhole (gathering_in (known_by pass)) }
        requires rows { rows ≡ sum_by row_count (sent_lists (known_by pass)) }
        ensures value { result ≡ gathering_in (known_by pass) }
    {
        Gathered { pass, rows }
    }

    /// The pass that has all parts of the lane.
    pub fn pass(&self) -> &Seat
        ensures { self.now ≡ gathered_view result.now }
    {
        &self.pass
    }

    /// The number of rows over all files.
    pub fn rows(&self) -> u64
        ensures rows { result ≡ sum_by row_count self.now.sent }
        ensures whole { IsWhole self.now }
    {
        self.rows
    }
}
