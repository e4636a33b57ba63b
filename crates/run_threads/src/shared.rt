//! Data that the threads of a run share.

ghost use Rattle.std.specs.Prelude.{◌≤◌, length};
ghost use Rattle.plan_parts.specs.OfPlan.{AreOfPlan};
ghost use Rattle.plan_parts.specs.declared.ranges.TheConstants.{MAX_DESTINATIONS};

use plan_parts::formulas::destination::Destination;
use plan_parts::plan::Plan;
use std::alloc::Global;

/// Data that the threads of a run share: the runtime, the gate, the plan and its destinations.
#[derive(Drop)]
pub struct Shared<'s, R, G> {
    pub rt: &'s R,
    pub alloc: Global,
    pub plan: &'s Plan,
    pub destinations: &'s [Destination],
    pub gate: &'s G,
    pub ghost some: { 1 ≤ length destinations.now },
    pub ghost few: { length destinations.now ≤ MAX_DESTINATIONS },
    pub ghost of_plan: { AreOfPlan destinations.now plan.now },
}
