//! A reader of plans.

ghost use Rattle.std.specs.Prelude.{◌≡◌, ◌≤◌, IfOk, MatchResult, OnOk};
ghost use Rattle.csv.specs.Records.{fields_of};
ghost use Rattle.pit_units.specs.OrMemory.{Gives};
ghost use Rattle.pit_model.specs.Planned.{at_row, finished, planned, record_at};
ghost use Rattle.pit_model.specs.EncodedPlan.{EncodePlan};
ghost use Rattle.plan_parts.specs.Plan.{PlanParts};
ghost use Rattle.pit_units.specs.declared.or_memory.OrMemory.TheVariants.{OutOfMemory};
ghost use Rattle.records.specs.Records.{records_of};
ghost use Rattle.plan_parts.specs.declared.ranges.TheConstants.{MAX_PLAN_RECORDS};

use crate::draft::Draft;
use crate::laws::plans_are_encoded;
use crate::plan_fault::{PlanFault, PlanFaultKind};
use csv::ByteRecord;
use pit_units::OrMemory;
use plan_parts::plan::Plan;
use plan_parts::ranges::MAX_PLAN_RECORDS;
use records::RecordReader;
use std::alloc::Global;

/// Returns the plan that a text states.
///
/// The text has records of comma-separated cells. Spaces and tabs at both ends of a cell do not count, nor do empty cells at the
/// end of a record. A record without cells is counted and skipped. Every other record begins with a key, in upper or lower case:
/// `name`, `grid`, `zone`, the word of a formula, `periods`, `rate`, `resource` or `limit`.
///
/// # Errors
///
/// - `Fault`: the text states no plan. It has the number and the kind of the first invalid record. If a part is missing, the number
///   is the number of records + 1.
/// - `OutOfMemory`: memory was refused.
pub fn read_plan(alloc: Global, text: &[u8]) -> Result<Plan, OrMemory<PlanFault>>
    ensures found { IfOk result (EncodePlan (records_of text.now)) }
    ensures only { (p : PlanParts) → EncodePlan (records_of text.now) p
        → MatchResult result (λ plan. plan ≡ p) (λ error. error ≡ OutOfMemory) }
    ensures exact { Gives (λ plan. plan) result (planned text.now) }
{
    plans_are_encoded();
    plan_stated(alloc, text)
}

// Returns the plan that the records of a text state one after the other.
#[tactic(auto, using(crate::proofs::PlanSteps::all_planned))]
fn plan_stated(alloc: Global, text: &[u8]) -> Result<Plan, OrMemory<PlanFault>>
    ensures { Gives (λ plan. plan) result (planned text.now) }
{
    let mut reader = RecordReader::from_slice(alloc, text);
    let mut row = ByteRecord::new(alloc);
    let mut draft = Draft::new(alloc);
    let mut number = 1;
    while reader.next(&mut row)? {
        admit(&mut draft, &row, number)?;
        number += 1;
    }
    finish(draft, number)
}

// Adds what the record with this number states.
#[tactic(auto, using(crate::proofs::PlanSteps::numbered, crate::proofs::PlanSteps::too_many))]
fn admit(draft: &mut Draft, row: &ByteRecord, number: u32) -> Result<(), OrMemory<PlanFault>>
    ensures admits { Gives (λ _. draft.new) result
        (record_at number draft.old (fields_of row.now)) }
    ensures few { OnOk result (number ≤ MAX_PLAN_RECORDS) }
{
    if number > MAX_PLAN_RECORDS {
        return Err(fault(number, PlanFaultKind::TooMany));
    }
    match draft.admit(row) {
        Ok(()) => Ok(()),
        Err(OrMemory::Fault(kind)) => Err(fault(number, kind)),
        Err(OrMemory::OutOfMemory) => Err(OrMemory::OutOfMemory),
    }
}

// Returns the plan; `number` is the number of records + 1.
fn finish(draft: Draft, number: u32) -> Result<Plan, OrMemory<PlanFault>>
    ensures { Gives (λ plan. plan) result (at_row number (finished draft)) }
{
    match draft.finish() {
        Ok(plan) => Ok(plan),
        Err(kind) => Err(fault(number, kind)),
    }
}

fn fault(row: u32, kind: PlanFaultKind) -> OrMemory<PlanFault>
    ensures { result ≡ OrMemory.Fault (record { row = row; kind = kind }) }
{
    OrMemory::Fault(PlanFault { row, kind })
}
