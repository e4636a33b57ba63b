//! The settings and the thread budget of a run, and whether the settings fit the plan.

ghost use Rattle.std.specs.Prelude.{◌≡◌, ◌↔◌, Err, IsTrue, IfErr, OnOk, length, map};
ghost use Rattle.pit_compile.specs.Settings.{IsSettingsFault};
ghost use Rattle.pit_compile.specs.Suits.{Suits};
ghost use Rattle.refusals.specs.declared.settings_fault.SettingsFault.{SettingsFault as ASettingsFault};
ghost use Rattle.plan_parts.specs.Destinations.{formulas_of};
ghost use Rattle.plan_parts.specs.PlanFormulas.{formulas_of_plan};

use plan_parts::formulas::destination::Destination;
use plan_parts::formulas::formula::{Formula, NamedFormula};
use plan_parts::laws::equal_formulas_are_the_same;
use plan_parts::plan::Plan;
use plan_parts::ranges::{MAX_CAPACITY, MAX_VALUERS};
pub use plan_parts::settings::Settings;
pub use refusals::settings_fault::SettingsFault;

/// The settings of a run, and the number of threads that it may start.
#[derive(Clone, Copy, Debug, PartialEq, Eq)]
pub struct Budget {
    /// The settings of the run.
    pub settings: Settings,
    /// The number of thread starts; a further start counts as refused.
    pub starts: u32,
}

/// Fails with the first fault of the settings, in the order of `SettingsFault`, for `files` zone files.
#[tactic(auto, using(crate::proofs::SettingsFacts::reported_exactly))]
pub fn require_settings(
    files: usize,
    plan: &Plan,
    destinations: &[Destination],
    settings: Settings,
) -> Result<(), SettingsFault>
    ensures fit { OnOk result (Suits plan.now files (formulas_of destinations.now) settings) }
    ensures refused { IfErr result
        (IsSettingsFault plan.now files (formulas_of destinations.now) settings) }
    ensures exact { (kind : ASettingsFault) → (result ≡ Err kind)
        ↔ IsSettingsFault plan.now files (formulas_of destinations.now) settings kind }
{
    suits(files, plan, destinations, settings)
}

// Does what `require_settings` does.
fn suits(
    files: usize,
    plan: &Plan,
    destinations: &[Destination],
    settings: Settings,
) -> Result<(), SettingsFault>
    ensures fit { OnOk result (Suits plan.now files (formulas_of destinations.now) settings) }
    ensures refused { IfErr result
        (IsSettingsFault plan.now files (formulas_of destinations.now) settings) }
{
    if files != plan.cones().len() {
        return Err(SettingsFault::Files);
    }
    if settings.valuers == 0 || settings.valuers > MAX_VALUERS {
        return Err(SettingsFault::Valuers);
    }
    if settings.capacity == 0 || settings.capacity > MAX_CAPACITY {
        return Err(SettingsFault::Capacity);
    }
    if !are_the_plans(destinations, plan) {
        return Err(SettingsFault::Destinations);
    }
    Ok(())
}

// Returns whether the destinations have the formulas of the plan, in order.
fn are_the_plans(destinations: &[Destination], plan: &Plan) -> bool
    ensures { IsTrue result ↔ (formulas_of destinations.now ≡ formulas_of_plan plan.now) }
{
    let formulas = plan.formulas();
    destinations.len() == formulas.len() && are_same(destinations, formulas)
}

fn are_same(destinations: &[Destination], formulas: &[NamedFormula]) -> bool
    requires { length destinations.now ≡ length formulas.now }
    ensures { IsTrue result ↔ (formulas_of destinations.now ≡ map (λ f. f.formula) formulas.now) }
{
    for i in 0..formulas.len() {
        if !is_same(destinations[i].formula(), &formulas[i].formula) {
            return false;
        }
    }
    true
}

fn is_same(formula: &Formula, other: &Formula) -> bool
    ensures { IsTrue result ↔ (formula.now ≡ other.now) }
{
    equal_formulas_are_the_same();
    *formula == *other
}
