//! The lane: put ends pass rows and end marks to take ends through one bounded channel. Whatever the schedule, each
//! message leaves once, the messages of a file in order, and the messages gathered at the end are complete.
#![tactic(auto)]

mod bells;
mod closer;
mod gathered;
mod lane_ended;
pub mod laws;
mod message;
mod opening;
mod part;
mod put_end;
mod rule;
mod seated;
mod take_end;

pub use closer::{Closer, GivenUp, Stopped};
pub use gathered::Gathered;
pub use lane_ended::LaneEnded;
pub use message::Taken;
pub use opening::open;
pub use part::Part;
pub use put_end::{EndedPut, PutEnd};
pub use rule::{Parts, Receiver, Rule, Seat, Sender};
pub use seated::{SeatedReceiver, SeatedSender};
pub use take_end::TakeEnd;
