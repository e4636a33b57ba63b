//! Collects the rows of a run from its valuers.

ghost use Rattle.std.specs.Prelude.{◌≡◌, ◌≤◌, length, map, All, IfOk};
ghost use Rattle.std.specs.List.{flat_map};
ghost use Rattle.lane.specs.MessageKinds.{row_count};
ghost use Rattle.lane.specs.Whole.{IsWhole};
ghost use Rattle.plan_parts.specs.PlanFormulas.{formulas_of_plan};
ghost use Rattle.rows.specs.ItemsView.{items_in};
ghost use Rattle.valuers.specs.Valuing.{items_by, rows_by};
ghost use Rattle.plan_parts.specs.declared.ranges.TheConstants.{MAX_ROWS, MAX_VALUERS};

use collector::in_order;
use collector::laws::found_is_held;
use lane::Gathered;
use plan_parts::plan::Plan;
use rows::{PackedItems, RowLists};
use std::alloc::{AllocError, Global};

// Returns the rows of all zone files with their worths, in the order of the files and of the rows in each file. `items` are the items that
// each valuer returned. Fails only if memory is refused.
pub(crate) fn collect(
    alloc: Global,
    _gathered: &Gathered,
    plan: &Plan,
    items: Vec<PackedItems>,
) -> Result<RowLists, AllocError>
    requires whole { IsWhole _gathered.now }
    requires takers { length _gathered.now.took ≤ MAX_VALUERS }
    requires files { length _gathered.now.sent ≡ length plan.now.cones }
    requires few { All (λ sent. row_count sent ≤ MAX_ROWS) _gathered.now.sent }
    requires handed { items_in items.items ≡ map (items_by (formulas_of_plan plan.now)) _gathered.now.took }
    ensures { IfOk result (λ rows.
        rows ≡ flat_map (rows_by (formulas_of_plan plan.now)) _gathered.now.sent) }
{
    found_is_held();
    Ok(in_order(alloc, plan.cones().len() as u8, items)?)
}
