//! The plan of a mine.

ghost use Rattle.std.specs.Prelude.{◌≡◌};
ghost use Rattle.plan_parts.specs.PlanInvariant.{IsPlan, plan_of};

use crate::cone::Cone;
use crate::formulas::formula::NamedFormula;
use crate::grid::Grid;
use crate::limit::Limit;
use crate::name::Name;
use crate::resource::Resource;
use pit_units::Dec;
use std::marker::Model;

/// The number of periods of a plan, and its discount rate, which is the same for each period.
#[derive(Clone, Copy)]
pub struct Horizon {
    /// The number of periods.
    pub periods: u8,
    /// The discount rate.
    pub rate: Dec,
}

/// The plan of a mine, as `pit_model::read_plan` reads it from a text. Contracts see it as the record of its parts. In every value the parts are
/// in range and in order, and refer only to parts that exist.
#[derive(Debug, Drop)]
pub struct Plan {
    name: Name,
    grid: Grid,
    cones: Vec<Cone>,
    formulas: Vec<NamedFormula>,
    periods: u8,
    rate: Dec,
    resources: Vec<Resource>,
    limits: Vec<Limit>,
}

impl Model for Plan {
    ghost use Rattle.plan_parts.specs.Plan.{PlanParts};

    ghost Value = { PlanParts };

    ghost use Rattle.plan_parts.specs.inner.PlanFields.{parts_of, KeepsPlan};

    ghost view = { parts_of };

    ghost invariant = { KeepsPlan };
}

impl Plan {
    /// Makes a plan with these parts.
    pub fn new(
        name: Name,
        grid: Grid,
        cones: Vec<Cone>,
        formulas: Vec<NamedFormula>,
        horizon: Horizon,
        resources: Vec<Resource>,
        limits: Vec<Limit>,
    ) -> Plan
        requires { IsPlan (plan_of name grid cones.items formulas.items horizon resources.items
            limits.items) }
        ensures { result ≡ plan_of name grid cones.items formulas.items horizon resources.items
            limits.items }
    {
        Plan {
            name,
            grid,
            cones,
            formulas,
            periods: horizon.periods,
            rate: horizon.rate,
            resources,
            limits,
        }
    }

    /// Returns the plan's own NAME.
    pub fn name(&self) -> &Name
        ensures value { result.now ≡ self.now.name }
        ensures kept { IsPlan self.now }
    {
        &self.name
    }

    /// Returns the grid of the block model.
    pub fn grid(&self) -> Grid
        ensures value { result ≡ self.now.grid }
        ensures kept { IsPlan self.now }
    {
        self.grid
    }

    /// Returns the slope cone of each zone, in the order of the zone files: 1 to 64.
    pub fn cones(&self) -> &[Cone]
        ensures value { result.now ≡ self.now.cones }
        ensures kept { IsPlan self.now }
    {
        self.cones.as_slice()
    }

    /// Returns the destinations, in the order of the plan: 1 to 8.
    pub fn formulas(&self) -> &[NamedFormula]
        ensures value { result.now ≡ self.now.formulas }
        ensures kept { IsPlan self.now }
    {
        self.formulas.as_slice()
    }

    /// Returns the number of periods, 1 to 100.
    pub fn periods(&self) -> u8
        ensures value { result ≡ self.now.periods }
        ensures kept { IsPlan self.now }
    {
        self.periods
    }

    /// Returns the discount rate, 0 to 1.
    pub fn rate(&self) -> Dec
        ensures value { result ≡ self.now.rate }
        ensures kept { IsPlan self.now }
    {
        self.rate
    }

    /// Returns the resources, in the order of the plan: at most 8.
    pub fn resources(&self) -> &[Resource]
        ensures value { result.now ≡ self.now.resources }
        ensures kept { IsPlan self.now }
    {
        self.resources.as_slice()
    }

    /// Returns the limits, in strictly ascending order of resource and period.
    pub fn limits(&self) -> &[Limit]
        ensures value { result.now ≡ self.now.limits }
        ensures kept { IsPlan self.now }
    {
        self.limits.as_slice()
    }
}
