//! What tests of whole models share.

ghost use Rattle.std.specs.Prelude.{◌≡◌};
ghost use Rattle.plan_parts.specs.formulas.Formula.{IsFormulaInRange};
ghost use Rattle.plan_parts.specs.formulas.Worth.{worth};

use crate::tests::watch::Watched;
use pit_model::block::Block;
use pit_model::destination::{Destination, Valuer};
use pit_model::formula::Formula;
use pit_model::plan::Plan;
use std::alloc::Global;
use std::sync::Arc;
use std::test::Fail;

/// Returns the destinations of a plan, in order. Their closures report each worth to the watch before they compute it.
pub fn destinations_of(
    alloc: Global,
    plan: &Plan,
    watch: &Watched,
) -> Result<Vec<Destination>, Fail> {
    let mut destinations = Vec::new(alloc);
    for named in plan.formulas() {
        destinations.push(destination_of(alloc, &named.formula, watch)?)?;
    }
    Ok(destinations)
}

fn destination_of(alloc: Global, formula: &Formula, watch: &Watched) -> Result<Destination, Fail>
    requires { IsFormulaInRange formula.now }
{
    let kept = formula.copy(alloc)?;
    let reported = Arc::clone(watch)?;
    let valuer: Valuer = Box::new(
        alloc,
        move |block: Block| -> i128
            requires { IsFormulaInRange kept }
            ensures { result ≡ worth kept block }
        {
            reported.value();
            kept.worth(block)
        },
    )?;
    Ok(Destination::new(formula.copy(alloc)?, valuer))
}
