//! A plan whose records are being read.

ghost use Rattle.std.specs.Prelude.{◌≡◌, ◌<◌, ◌≤◌, length, unwrap_or, All, Some};
ghost use Rattle.csv.specs.Records.{fields_of};
ghost use Rattle.pit_units.specs.OrMemory.{Gives};
ghost use Rattle.records.specs.RecordCells.{cells_of};
ghost use Rattle.plan_parts.specs.PlanInvariant.{AreTonnes};
ghost use Rattle.pit_model.specs.PlanRecords.{grid_record, key_record, limit_more, limit_record, name_record, periods_record, rate_record, record_of, resource_more, resource_record};
ghost use Rattle.pit_model.specs.Planned.{finished};
ghost use Rattle.pit_model.specs.Stated.{nothing_stated};

use crate::cells::Cells;
use crate::grid_cells::{origin_in, size_in};
use crate::limit_cells::{bound_in, insert_limit, is_limited, limit_width, period_in};
use crate::named::{covers_in, has_repeat, has_resource, name_in, resource_number};
use crate::numbers::{integer_in, number_in};
use crate::plan_fault::PlanFaultKind;
use crate::plan_key::{PlanKey, key_of};
use csv::ByteRecord;
use pit_units::{Dec, OrMemory};
use plan_parts::cone::Cone;
use plan_parts::formulas::formula::NamedFormula;
use plan_parts::grid::{Axis, Grid};
use plan_parts::limit::Limit;
use plan_parts::name::Name;
use plan_parts::plan::{Horizon, Plan};
use plan_parts::ranges::{MAX_PERIODS, MAX_RATE, MAX_RESOURCES};
use plan_parts::resource::Resource;
use std::alloc::Global;
use std::marker::Model;

mod formulas;
mod zones;

pub use formulas::{FormulaKey, formula_key_of};

/// The parts that the records of a plan stated so far.
#[derive(Drop)]
pub struct Draft {
    alloc: Global,
    name: Option<Name>,
    grid: Option<Grid>,
    cones: Vec<Cone>,
    formulas: Vec<NamedFormula>,
    periods: Option<u8>,
    rate: Option<Dec>,
    resources: Vec<Resource>,
    limits: Vec<Limit>,
}

impl Model for Draft {
    ghost use Rattle.pit_model.specs.Stated.{Stated};

    ghost Value = { Stated };

    ghost use Rattle.pit_model.specs.inner.DraftFields.{stated_of, KeepsDraft};

    ghost view = { stated_of };

    ghost invariant = { KeepsDraft };
}

impl Draft {
    /// Makes a draft before the first record.
    pub fn new(alloc: Global) -> Draft
        ensures { result ≡ nothing_stated }
    {
        Draft {
            alloc,
            name: None,
            grid: None,
            cones: Vec::new(alloc),
            formulas: Vec::new(alloc),
            periods: None,
            rate: None,
            resources: Vec::new(alloc),
            limits: Vec::new(alloc),
        }
    }

    /// Adds what the next record states. After an error the draft is unspecified.
    ///
    /// # Errors
    ///
    /// - `Fault`: the record is invalid; with the first kind that applies.
    /// - `OutOfMemory`: memory was refused.
    pub fn admit(&mut self, row: &ByteRecord) -> Result<(), OrMemory<PlanFaultKind>>
        ensures { Gives (λ _. self.new) result
            (record_of self.old (cells_of (fields_of row.now))) }
    {
        let cells = Cells::of(row);
        if cells.len() == 0 {
            return Ok(());
        }
        match key_of(cells.at(0)) {
            None => Err(OrMemory::Fault(PlanFaultKind::Key)),
            Some(key) => self.admit_key(key, &cells),
        }
    }

    fn admit_key(&mut self, key: PlanKey, cells: &Cells) -> Result<(), OrMemory<PlanFaultKind>>
        ensures { Gives (λ _. self.new) result
            (key_record (Some key) self.old cells.now) }
    {
        match key {
            PlanKey::Name => self.admit_name(cells),
            PlanKey::Grid => self.admit_grid(cells),
            PlanKey::Zone => self.admit_zone(cells),
            PlanKey::Destination(key) => self.admit_destination(key, cells),
            PlanKey::Periods => self.admit_periods(cells),
            PlanKey::Rate => self.admit_rate(cells),
            PlanKey::Resource => self.admit_resource(cells),
            PlanKey::Limit => self.admit_limit(cells),
        }
    }

    /// Returns the plan after its last record.
    ///
    /// # Errors
    ///
    /// `Missing`: a required part is missing.
    pub fn finish(self) -> Result<Plan, PlanFaultKind>
        ensures { result ≡ finished self }
    {
        let (Some(name), Some(grid), Some(periods), Some(rate)) = (
            self.name,
            self.grid,
            self.periods,
            self.rate,
        ) else {
            return Err(PlanFaultKind::Missing);
        };
        if self.cones.is_empty() || self.formulas.is_empty() {
            return Err(PlanFaultKind::Missing);
        }
        Ok(Plan::new(
            name,
            grid,
            self.cones,
            self.formulas,
            Horizon { periods, rate },
            self.resources,
            self.limits,
        ))
    }

    fn admit_name(&mut self, cells: &Cells) -> Result<(), OrMemory<PlanFaultKind>>
        ensures { Gives (λ _. self.new) result
            (name_record self.old cells.now) }
    {
        if cells.len() != 2 {
            return Err(OrMemory::Fault(PlanFaultKind::Width));
        }
        let name = name_in(self.alloc, cells.at(1))?;
        if self.name.is_some() {
            return Err(OrMemory::Fault(PlanFaultKind::Twice));
        }
        self.name = Some(name);
        Ok(())
    }

    fn admit_grid(&mut self, cells: &Cells) -> Result<(), OrMemory<PlanFaultKind>>
        ensures { Gives (λ _. self.new) result
            (grid_record self.old cells.now) }
    {
        if cells.len() != 7 {
            return Err(OrMemory::Fault(PlanFaultKind::Width));
        }
        let x = origin_in(cells.at(1))?;
        let y = origin_in(cells.at(2))?;
        let z = origin_in(cells.at(3))?;
        let along_x = size_in(cells.at(4))?;
        let along_y = size_in(cells.at(5))?;
        let along_z = size_in(cells.at(6))?;
        if self.grid.is_some() {
            return Err(OrMemory::Fault(PlanFaultKind::Twice));
        }
        self.grid = Some(Grid {
            x: Axis {
                origin: x,
                size: along_x,
            },
            y: Axis {
                origin: y,
                size: along_y,
            },
            z: Axis {
                origin: z,
                size: along_z,
            },
        });
        Ok(())
    }

    fn admit_resource(&mut self, cells: &Cells) -> Result<(), OrMemory<PlanFaultKind>>
        ensures { Gives (λ _. self.new) result
            (resource_record self.old cells.now) }
    {
        if cells.len() < 3 {
            return Err(OrMemory::Fault(PlanFaultKind::Width));
        }
        let name = name_in(self.alloc, cells.at(1))?;
        let covers = covers_in(self.alloc, cells, self.formulas.as_slice())?;
        self.add_resource(Resource { name, covers })
    }

    fn add_resource(&mut self, resource: Resource) -> Result<(), OrMemory<PlanFaultKind>>
        requires there { All (λ n. n < length self.old.formulas) resource.covers }
        requires some { 1 ≤ length resource.covers }
        ensures { Gives (λ _. self.new) result (resource_more self.old resource.name resource.covers) }
    {
        if has_resource(self.resources.as_slice(), resource.name.as_str().as_bytes())
            || has_repeat(resource.covers.as_slice())
        {
            return Err(OrMemory::Fault(PlanFaultKind::Twice));
        }
        if self.resources.len() == MAX_RESOURCES as usize {
            return Err(OrMemory::Fault(PlanFaultKind::TooMany));
        }
        self.resources.push(resource)?;
        Ok(())
    }

    fn admit_limit(&mut self, cells: &Cells) -> Result<(), OrMemory<PlanFaultKind>>
        ensures { Gives (λ _. self.new) result (limit_record self.old cells.now) }
    {
        if cells.len() != limit_width(cells) {
            return Err(OrMemory::Fault(PlanFaultKind::Width));
        }
        let resource = resource_number(self.resources.as_slice(), cells.at(1))?;
        let period = period_in(self.periods.unwrap_or(0), cells.at(2))?;
        let bound = bound_in(cells)?;
        self.add_limit(Limit {
            resource,
            period,
            bound,
        })
    }

    fn add_limit(&mut self, limit: Limit) -> Result<(), OrMemory<PlanFaultKind>>
        requires resource { limit.resource < length self.old.resources }
        requires period { limit.period < unwrap_or self.old.periods 0 }
        requires tonnes { AreTonnes limit.bound }
        ensures { Gives (λ _. self.new) result (limit_more self.old limit) }
    {
        if is_limited(self.limits.as_slice(), &limit) {
            return Err(OrMemory::Fault(PlanFaultKind::Twice));
        }
        if limit.bound.is_turned() {
            return Err(OrMemory::Fault(PlanFaultKind::Order));
        }
        insert_limit(&mut self.limits, limit)?;
        Ok(())
    }

    fn admit_periods(&mut self, cells: &Cells) -> Result<(), OrMemory<PlanFaultKind>>
        ensures { Gives (λ _. self.new) result
            (periods_record self.old cells.now) }
    {
        if cells.len() != 2 {
            return Err(OrMemory::Fault(PlanFaultKind::Width));
        }
        let periods = integer_in(cells.at(1), 1, MAX_PERIODS)?;
        if self.periods.is_some() {
            return Err(OrMemory::Fault(PlanFaultKind::Twice));
        }
        self.periods = Some(periods as u8);
        Ok(())
    }

    fn admit_rate(&mut self, cells: &Cells) -> Result<(), OrMemory<PlanFaultKind>>
        ensures { Gives (λ _. self.new) result
            (rate_record self.old cells.now) }
    {
        if cells.len() != 2 {
            return Err(OrMemory::Fault(PlanFaultKind::Width));
        }
        let rate = number_in(cells.at(1), 6, 0, MAX_RATE)?;
        if self.rate.is_some() {
            return Err(OrMemory::Fault(PlanFaultKind::Twice));
        }
        self.rate = Some(rate);
        Ok(())
    }
}
