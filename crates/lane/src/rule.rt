//! The channel of a lane and its rule: what the channel holds and what its passes know is always a state of the lane
//! machine.

use crate::message::Taken;
use crate::part::Part;
use crossbeam_channel::protocol::{Join, Lesson, Outcome, Protocol, Split};
use crossbeam_channel::{Pass, RuledReceiver, RuledSender};
use std::alloc::Global;
use std::collections::LinkedList;

/// What a pass knows: its parts.
pub type Parts = LinkedList<Part>;

/// The rule of the channel.
pub struct Rule;

impl Protocol<Taken, Parts> for Rule {
    ghost use Rattle.std.specs.Prelude.{[], ◌∷◌};
    ghost use Rattle.lane.specs.declared.part.Part.TheVariants.{Count};
    ghost use Rattle.lane.specs.Rule.{IsLane};

    ghost holds = { IsLane };

    // A first view is one constant for every lane, so it begins with a count of no files, no takers and no capacity.
    ghost first = { Count 0 0 0 ∷ [] };
}

/// An end that sends under the rule.
pub type Sender = RuledSender<Taken, Parts, Rule, Global>;

/// An end that receives under the rule.
pub type Receiver = RuledReceiver<Taken, Parts, Rule, Global>;

/// What an end knows of the lane.
pub type Seat = Pass<Taken, Parts>;

/// A send of a row, an end mark, a Stop or a Quit.
pub struct Sends;

impl Outcome<Taken, Parts> for Sends {
    ghost use Rattle.std.specs.Prelude.{◌≡◌};
    ghost use Rattle.lane.specs.Steps.{with_message};

    ghost then = { λ v m w. w ≡ with_message v m };
}

impl Lesson<Taken, Parts> for Sends {
    ghost use Rattle.std.specs.Prelude.{⊤};

    ghost fact = { λ v items. ⊤ };
}

/// A receive of a take end.
pub struct Receives;

impl Outcome<Taken, Parts> for Receives {
    ghost use Rattle.lane.specs.inner.Views.{Takes};

    ghost then = { Takes };
}

impl Lesson<Taken, Parts> for Receives {
    ghost use Rattle.std.specs.Prelude.{⊤};

    ghost fact = { λ v items. ⊤ };
}

/// The look at a lane that is done: it takes no message, and learns that the lane is complete.
pub struct Looks;

impl Outcome<Taken, Parts> for Looks {
    ghost then = { λ v m w. ⊥ };
}

impl Lesson<Taken, Parts> for Looks {
    ghost use Rattle.lane.specs.EndFields.{gathering_in};
    ghost use Rattle.lane.specs.Whole.{IsWhole};

    ghost fact = { λ v items. IsWhole (gathering_in v) };
}

/// One more file is counted.
pub struct CountsFile;

impl Split<Parts> for CountsFile {
    ghost use Rattle.std.specs.Prelude.{[]};
    ghost use Rattle.lane.specs.inner.Views.{more_files};

    ghost left = { more_files };

    ghost right = { λ v. [] };
}

/// One more taker is counted.
pub struct CountsTaker;

impl Split<Parts> for CountsTaker {
    ghost use Rattle.std.specs.Prelude.{[]};
    ghost use Rattle.lane.specs.inner.Views.{more_takers};

    ghost left = { more_takers };

    ghost right = { λ v. [] };
}

/// One more message of capacity is counted.
pub struct CountsPlace;

impl Split<Parts> for CountsPlace {
    ghost use Rattle.std.specs.Prelude.{[]};
    ghost use Rattle.lane.specs.inner.Views.{more_places};

    ghost left = { more_places };

    ghost right = { λ v. [] };
}

/// The count becomes all parts of the opened lane.
pub struct Opens;

impl Split<Parts> for Opens {
    ghost use Rattle.std.specs.Prelude.{[]};
    ghost use Rattle.lane.specs.inner.Views.{opened_view};

    ghost left = { opened_view };

    ghost right = { λ v. [] };
}

/// The part after the closer's moves to a new pass.
pub struct Gives;

impl Split<Parts> for Gives {
    ghost use Rattle.lane.specs.inner.Views.{without_second, second_alone};

    ghost left = { without_second };

    ghost right = { second_alone };
}

/// One pass takes over the parts of another.
pub struct Joins;

impl Join<Parts> for Joins {
    ghost use Rattle.std.specs.Prelude.{[], ◌++◌};

    ghost both = { λ v u. v ++ u };

    ghost spent = { [] };
}
