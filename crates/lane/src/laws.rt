//! Laws of the lane, for every size, every sequence of events and every state. Their functions do nothing; their
//! contracts are what is proved.

ghost use Rattle.std.specs.Prelude.{List};
ghost use Rattle.lane.specs.declared.part.Part.{Part};
ghost use Rattle.lane.specs.Rule.{IsLane};
ghost use Rattle.lane.specs.Laws.{RunsStayLawful, LeavingIsPrefixOfSent, TakenIsPrefixOfSent, SendIsAnEvent, ReceiveIsAnEvent, MakeIsTheOpening, SplitIsNoEvent, JoinIsNoEvent, LookFindsNothing, SomeThreadCanContinue, StepsRunOut, RunsEnd};

use crate::message::Taken;
use crate::rule::{Parts, Rule};
use crossbeam_channel::protocol::Protocol;

/// The rule of the channel that `open` makes: at every moment, whatever the schedule, what the channel holds and what
/// its passes know is a lawful lane.
pub fn the_rule_is_kept()
    ensures { (items : List Taken) (views : List (List Part))
        → ⟦<Rule as Protocol<Taken, Parts>>⟧.holds items views → IsLane items views }
{}

/// From the opening state every sequence of allowed events leads to a lawful state.
pub fn runs_stay_lawful()
    ensures { RunsStayLawful }
{}

/// Of the messages that a file sent, the first ones have left the queue, and the queue has the others, in order.
///
/// - `runs`: this is true in every run of the machine, of the messages that left in the order of leaving.
/// - `states`: this is true in every lawful state. Each message that left was taken once, as it was sent.
pub fn what_leaves_is_a_prefix()
    ensures runs { LeavingIsPrefixOfSent }
    ensures states { TakenIsPrefixOfSent }
{}

/// Each kind of step of the code is one event of the machine, allowed in the state in which it comes, or no event: then
/// it leaves the state unchanged.
pub fn steps_are_events()
    ensures make { MakeIsTheOpening }
    ensures split { SplitIsNoEvent }
    ensures join { JoinIsNoEvent }
    ensures send { SendIsAnEvent }
    ensures receive { ReceiveIsAnEvent }
    ensures look { LookFindsNothing }
{}

/// The threads of a run never all wait for one another. A reader puts its rows and then its end mark; the closer, once
/// every reader has ended, puts a mark for each valuer; a valuer takes until it has taken a mark.
///
/// - `states`: in every lawful state to which they can bring the lane, all have finished, or some thread can continue.
/// - `steps`: each step reduces the number of steps that remain by one.
/// - `runs`: so from the opening state, however their steps interleave, they make a bounded number of steps, and some
///   thread can continue until all have finished.
pub fn the_lane_never_gets_stuck()
    ensures states { SomeThreadCanContinue }
    ensures steps { StepsRunOut }
    ensures runs { RunsEnd }
{}
