//! The line that the program prints for an error, and the exit status.

ghost use Rattle.std.specs.Prelude.{◌≡◌, ◌≢◌, ◌≤◌, ◌++◌, length, Ok, IfOk, IfErr, OnOk, OnErr};
ghost use Rattle.pit_model.specs.Planned.{planned};
ghost use Rattle.command_io.specs.FaultLine.{Ends, EndsBy, EndsRefused, program_line};
ghost use Rattle.command_io.specs.PlanText.{IsNoPlan};
ghost use Rattle.command_io.specs.Refused.{refused_text};
ghost use Rattle.plan_parts.specs.declared.ranges.TheConstants.{MAX_PLAN_BYTES};

use crate::plan_text::stated_plan;
use crate::refused::Refused;
use crate::refused::status::RESOURCES;
use pit_model::plan::Plan;
use refusals::refusal::Refusal;
use std::alloc::{AllocError, Global};

/// Returns the plan that a text states. After an error, returns the exit status, and appends the error's line to `lines`.
///
/// A text of more than 1,048,576 bytes is `plan: TooLong`. If memory is refused, for the plan or for the line, the status is 4 and
/// `lines` is unchanged.
#[tactic(auto, using(crate::proofs::Ends::no_plan_ends))]
pub fn plan_from(alloc: Global, text: &[u8], lines: &mut Vec<u8>) -> Result<Plan, u8>
    ensures plan { IfOk result (λ plan. (length text.now ≤ MAX_PLAN_BYTES)
        × (planned text.now ≡ Ok plan)) }
    ensures quiet { OnOk result (lines.new.items ≡ lines.old.items) }
    ensures refused { IfErr result (EndsBy (IsNoPlan text.now) lines.old.items lines.new.items) }
    ensures ends { IfErr result (EndsRefused lines.old.items lines.new.items) }
{
    match stated_plan(alloc, text) {
        Ok(plan) => Ok(plan),
        Err(refused) => Err(report(alloc, &refused, lines)),
    }
}

/// Appends the line of an error, and returns the exit status. If memory is refused, before or for the line, the status is 4 and
/// `lines` is unchanged.
pub fn report(alloc: Global, refused: &Refused, lines: &mut Vec<u8>) -> u8
    ensures ends { Ends refused.now lines.old.items lines.new.items result }
    ensures fails { result ≢ 0 }
{
    if *refused == Refused::Run(Refusal::OutOfMemory) {
        return RESOURCES;
    }
    match append_line(alloc, refused, lines) {
        Ok(()) => refused.status(),
        Err(_) => RESOURCES,
    }
}

/// Appends the line of an error. If memory is refused, `lines` is unchanged.
pub fn append_line(alloc: Global, refused: &Refused, lines: &mut Vec<u8>) -> Result<(), AllocError>
    ensures ok { OnOk result
        (lines.new.items ≡ lines.old.items ++ program_line (refused_text refused.now)) }
    ensures err { OnErr result (lines.new.items ≡ lines.old.items) }
{
    let line = format!(in alloc; "pitc: {refused}\n")?;
    lines.extend_from_slice(line.as_bytes())
}
