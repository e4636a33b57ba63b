//! The plan in a file.

ghost use Rattle.std.specs.Prelude.{IfOk, IfErr};
ghost use Rattle.command_io.specs.PlanFile.{HasPlan, IsNoPlanAt, IsNoPlanFile, IsPlanAt};

use crate::input::read_source;
use crate::plan_text::stated_plan;
use crate::refused::Refused;
use crate::refused::source::Source;
use devices::feeds::feed::Feed;
use devices::files::opener::Opener;
use pit_model::plan::Plan;
use pit_model::ranges::MAX_PLAN_BYTES;
use std::alloc::Global;

/// Returns the plan in the file at this path. Opens no other file.
///
/// # Errors
///
/// - `FeedFailed`: the file cannot be opened or read.
/// - `TooLong`: the file has more than 1,048,576 bytes.
/// - `Plan`: its text states no plan.
/// - `Run`: memory was refused.
pub fn read_plan_file<O: Opener>(alloc: Global, files: &mut O, path: &str) -> Result<Plan, Refused>
    ensures plan { IfOk result (IsPlanAt O.Opened.state path.now (O.opened files.old)
        (O.opened files.new)) }
    ensures refused { IfErr result (IsNoPlanAt O.Opened.state path.now (O.opened files.old)
        (O.opened files.new)) }
{
    match files.open(path) {
        Ok(mut feed) => plan_of_feed(alloc, &mut feed),
        Err(_) => Err(Refused::FeedFailed(Source::Plan)),
    }
}

// Returns the plan that the bytes of a feed state.
#[tactic(auto, using(crate::proofs::Ends::plan_unread, crate::proofs::Ends::plan_read, crate::proofs::Ends::plan_stated))]
fn plan_of_feed<F: Feed>(alloc: Global, feed: &mut F) -> Result<Plan, Refused>
    ensures plan { IfOk result (HasPlan (F.state feed.old) (F.state feed.new)) }
    ensures refused { IfErr result (IsNoPlanFile (F.state feed.old) (F.state feed.new)) }
{
    let text = read_source(alloc, feed, Source::Plan, MAX_PLAN_BYTES as u64)?;
    stated_plan(alloc, text.as_slice())
}
