//! The plan that a text states.

ghost use Rattle.std.specs.Prelude.{◌≡◌, ◌≤◌, length, Ok, IfOk, IfErr};
ghost use Rattle.pit_model.specs.Planned.{planned};
ghost use Rattle.command_io.specs.PlanText.{IsNoPlan};
ghost use Rattle.plan_parts.specs.declared.ranges.TheConstants.{MAX_PLAN_BYTES};

use crate::refused::Refused;
use crate::refused::source::Source;
use pit_model::plan::Plan;
use pit_model::ranges::MAX_PLAN_BYTES;
use pit_model::read_plan;
use std::alloc::Global;

/// Returns the plan that a text states.
///
/// # Errors
///
/// - `TooLong`: the text has more than 1,048,576 bytes.
/// - `Plan`: the text states no plan.
/// - `Run`: memory was refused.
#[tactic(auto, using(crate::proofs::Ends::invalid_plan))]
pub fn stated_plan(alloc: Global, text: &[u8]) -> Result<Plan, Refused>
    ensures plan { IfOk result (λ plan. (length text.now ≤ MAX_PLAN_BYTES)
        × (planned text.now ≡ Ok plan)) }
    ensures refused { IfErr result (IsNoPlan text.now) }
{
    if text.len() > MAX_PLAN_BYTES {
        return Err(Refused::TooLong(Source::Plan));
    }
    Ok(read_plan(alloc, text)?)
}
