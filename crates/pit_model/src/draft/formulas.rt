//! The records of destinations: the key and the cells of each formula.

ghost use Rattle.std.specs.Prelude.{◌≡◌, ◌≤◌, length, All};
ghost use Rattle.pit_units.specs.OrMemory.{Gives};
ghost use Rattle.plan_parts.specs.formulas.BandsInvariant.{IsBand};
ghost use Rattle.plan_parts.specs.formulas.Formula.{IsFormulaInRange};
ghost use Rattle.pit_model.specs.DestinationRecords.{destination_more, destination_record, fresh_destination, fresh_leach, rising};
ghost use Rattle.pit_model.specs.PlanKeys.{formula_key_of};
ghost use Rattle.pit_model.specs.declared.draft.formulas.FormulaKey.TheVariants as key;
ghost use Rattle.plan_parts.specs.declared.ranges.TheConstants.{MAX_COST, MAX_PRICE};

use crate::band_cells::bands_in;
use crate::cells::Cells;
use crate::draft::Draft;
use crate::named::{has_destination, name_in};
use crate::numbers::integer_in;
use crate::plan_fault::PlanFaultKind;
use pit_units::OrMemory;
use plan_parts::formulas::band::{Band, Bands, starts_rise};
use plan_parts::formulas::formula::{Formula, NamedFormula};
use plan_parts::name::Name;
use plan_parts::ranges::{MAX_BANDS, MAX_COST, MAX_DESTINATIONS, MAX_PRICE, MAX_RECOVERY};
use records::cells::is_word;

/// The key of a destination's record: its formula.
#[derive(Clone, Copy, Debug, PartialEq, Eq)]
pub enum FormulaKey {
    Mill,
    Leach,
    Dump,
}

/// Returns the formula whose key is the cell, in upper or lower case.
pub fn formula_key_of(cell: &[u8]) -> Option<FormulaKey>
    ensures { result ≡ formula_key_of cell.now }
{
    if is_word(cell, b"mill") {
        Some(FormulaKey::Mill)
    } else if is_word(cell, b"leach") {
        Some(FormulaKey::Leach)
    } else if is_word(cell, b"dump") {
        Some(FormulaKey::Dump)
    } else {
        None
    }
}

impl Draft {
    /// Adds the destination that a record states. Fails like `admit`; after an error the draft is unspecified.
    pub(crate) fn admit_destination(
        &mut self,
        key: FormulaKey,
        cells: &Cells,
    ) -> Result<(), OrMemory<PlanFaultKind>>
        ensures { Gives (λ _. self.new) result
            (destination_record key self.old cells.now) }
    {
        match key {
            FormulaKey::Mill => self.admit_mill(cells),
            FormulaKey::Leach => self.admit_leach(cells),
            FormulaKey::Dump => self.admit_dump(cells),
        }
    }

    fn admit_mill(&mut self, cells: &Cells) -> Result<(), OrMemory<PlanFaultKind>>
        ensures { Gives (λ _. self.new) result
            (destination_record key.Mill self.old cells.now) }
    {
        if cells.len() != 5 {
            return Err(OrMemory::Fault(PlanFaultKind::Width));
        }
        let name = name_in(self.alloc, cells.at(1))?;
        let recovery = integer_in(cells.at(2), 0, u32::from(MAX_RECOVERY))?;
        let price = integer_in(cells.at(3), 0, MAX_PRICE)?;
        let cost = integer_in(cells.at(4), 0, MAX_COST)?;
        self.add_new(
            name,
            Formula::Mill {
                recovery: recovery as u16,
                price: price as u64,
                cost: cost as u64,
            },
        )
    }

    fn admit_leach(&mut self, cells: &Cells) -> Result<(), OrMemory<PlanFaultKind>>
        ensures { Gives (λ _. self.new) result
            (destination_record key.Leach self.old cells.now) }
    {
        if cells.len() < 6 || cells.len() % 2 != 0 {
            return Err(OrMemory::Fault(PlanFaultKind::Width));
        }
        let name = name_in(self.alloc, cells.at(1))?;
        let price = integer_in(cells.at(2), 0, MAX_PRICE)?;
        let cost = integer_in(cells.at(3), 0, MAX_COST)?;
        let bands = bands_in(self.alloc, cells)?;
        self.add_leach(name, bands, price as u64, cost as u64)
    }

    fn add_leach(
        &mut self,
        name: Name,
        bands: Vec<Band>,
        price: u64,
        cost: u64,
    ) -> Result<(), OrMemory<PlanFaultKind>>
        requires some { 1 ≤ length bands.items }
        requires in_range { All IsBand bands.items }
        requires price { price ≤ MAX_PRICE }
        requires cost { cost ≤ MAX_COST }
        ensures { Gives (λ _. self.new) result
            (fresh_leach self.old name bands.items price cost) }
    {
        if has_destination(self.formulas.as_slice(), name.as_str().as_bytes()) {
            return Err(OrMemory::Fault(PlanFaultKind::Twice));
        }
        let bands = rising(bands)?;
        self.add_formula(name, Formula::Leach { bands, price, cost })
    }

    fn admit_dump(&mut self, cells: &Cells) -> Result<(), OrMemory<PlanFaultKind>>
        ensures { Gives (λ _. self.new) result
            (destination_record key.Dump self.old cells.now) }
    {
        if cells.len() != 3 {
            return Err(OrMemory::Fault(PlanFaultKind::Width));
        }
        let name = name_in(self.alloc, cells.at(1))?;
        let cost = integer_in(cells.at(2), 0, MAX_COST)?;
        self.add_new(name, Formula::Dump { cost: cost as u64 })
    }

    // Adds a destination, unless one has its NAME.
    fn add_new(&mut self, name: Name, formula: Formula) -> Result<(), OrMemory<PlanFaultKind>>
        requires { IsFormulaInRange formula }
        ensures { Gives (λ _. self.new) result (fresh_destination self.old name formula) }
    {
        if has_destination(self.formulas.as_slice(), name.as_str().as_bytes()) {
            return Err(OrMemory::Fault(PlanFaultKind::Twice));
        }
        self.add_formula(name, formula)
    }

    // Adds a destination, unless there are 8 already.
    fn add_formula(&mut self, name: Name, formula: Formula) -> Result<(), OrMemory<PlanFaultKind>>
        requires { IsFormulaInRange formula }
        ensures { Gives (λ _. self.new) result (destination_more self.old name formula) }
    {
        if self.formulas.len() == MAX_DESTINATIONS as usize {
            return Err(OrMemory::Fault(PlanFaultKind::TooMany));
        }
        self.formulas.push(NamedFormula { name, formula })?;
        Ok(())
    }
}

// Returns the bands of a leach, if their starts rise and they are at most 16.
fn rising(bands: Vec<Band>) -> Result<Bands, PlanFaultKind>
    requires some { 1 ≤ length bands.items }
    requires in_range { All IsBand bands.items }
    ensures { result ≡ rising bands.items }
{
    if !starts_rise(bands.as_slice()) {
        return Err(PlanFaultKind::Order);
    }
    if bands.len() > MAX_BANDS {
        return Err(PlanFaultKind::TooMany);
    }
    Ok(Bands::new(bands).unwrap())
}
