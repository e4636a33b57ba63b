//! The threads of a run: a reader for each zone file, which puts rows into the lane, and valuers, which take them.
#![tactic(auto)]

mod file_reading;
mod handing_over;
mod in_scope;
mod opened;
mod promises;
mod read_result;
mod ready;
mod result_room;
mod shared;
mod starts;

pub use handing_over::{Allowance, HandedOver, NoThread, hand_over};
pub use read_result::ReadResult;
pub use starts::{GivenFeeds, Starts};
