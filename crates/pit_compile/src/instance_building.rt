//! Builds the instance from the rows of a model.

ghost use Rattle.std.specs.Prelude.{◌≡◌, IfErr, IfOk};
ghost use Rattle.mine_instance.specs.OfModel.{instance};
ghost use Rattle.mine_instance.specs.Valid.{IsValid};
ghost use Rattle.precedence.specs.Identifier.{blocks_of_rows};
ghost use Rattle.pit_compile.specs.inner.ModelRows.{AreModelRows};
ghost use Rattle.pit_compile.specs.inner.Repeats.{IsRepeat};
ghost use Rattle.pit_compile.specs.Verdict.{AreApart};

use crate::numbered::numbered;
use mine_instance::instance::Instance;
use mine_instance::{LazyCoefs, LazyValues, build_with};
use plan_parts::plan::Plan;
use precedence::LazyPreds;
use refusals::refusal::Refusal;
use rows::RowLists;
use std::alloc::Global;

/// Returns the instance of these rows. Its predecessors, coefficients and values are computed lazily. Keeps only the worths of the rows
/// after numbering them.
///
/// # Errors
///
/// - `Same`: two blocks are in the same cell.
/// - `OutOfMemory`: memory was refused.
pub fn instance_of_rows(
    alloc: Global,
    rows: RowLists,
    plan: &Plan,
) -> Result<Instance<LazyPreds, LazyCoefs, LazyValues>, Refusal>
    requires { AreModelRows plan.now rows }
    ensures apart { IfOk result (λ _. AreApart (blocks_of_rows rows)) }
    ensures value { IfOk result (λ built. built ≡ instance plan.now (blocks_of_rows rows)) }
    ensures valid { IfOk result IsValid }
    ensures refused { IfErr result (IsRepeat rows) }
{
    let numbering = numbered(alloc, &rows)?;
    let worths = rows.into_worths(alloc)?;
    let preds = LazyPreds::new(alloc, &numbering, plan)?;
    let (blocks, positions) = numbering.into_parts();
    let values = LazyValues::new(worths, positions);
    Ok(build_with(alloc, blocks, preds, values, plan)?)
}
