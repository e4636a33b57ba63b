//! The NAMEs in a plan's cells.

ghost use Rattle.std.specs.Prelude.{◌≡◌, ◌-◌, ◌<◌, ◌≤◌, drop, length, is_some, All, IfOk, IfSome, Some};
ghost use Rattle.pit_units.specs.OrMemory.{Gives};
ghost use Rattle.plan_parts.specs.PlanInvariant.{has_repeat};
ghost use Rattle.pit_model.specs.PlanRecords.{covers_in};
ghost use Rattle.pit_model.specs.StatedCells.{name_in, number_of};
ghost use Rattle.pit_model.specs.Stated.{destination_named, resource_named};
ghost use Rattle.plan_parts.specs.declared.ranges.TheConstants.{MAX_DESTINATIONS, MAX_RESOURCES};

use crate::cells::Cells;
use crate::plan_fault::PlanFaultKind;
use pit_units::OrMemory;
use plan_parts::formulas::formula::NamedFormula;
use plan_parts::name::Name;
use plan_parts::resource::{Covers, Resource};
use std::alloc::Global;

/// Returns the NAME that a cell states.
///
/// # Errors
///
/// - `Fault`, with `Name`: the cell is no NAME.
/// - `OutOfMemory`: memory was refused.
pub fn name_in(alloc: Global, cell: &[u8]) -> Result<Name, OrMemory<PlanFaultKind>>
    ensures { Gives (λ name. name) result (name_in cell.now) }
{
    match Name::read(alloc, cell)? {
        Some(name) => Ok(name),
        None => Err(OrMemory::Fault(PlanFaultKind::Name)),
    }
}

/// Returns whether a destination has this NAME.
pub fn has_destination(formulas: &[NamedFormula], name: &[u8]) -> bool
    ensures { result ≡ is_some (destination_named formulas.now name.now) }
{
    formula_place(formulas, name).is_some()
}

/// Returns whether a resource has this NAME.
pub fn has_resource(resources: &[Resource], name: &[u8]) -> bool
    ensures { result ≡ is_some (resource_named resources.now name.now) }
{
    resource_place(resources, name).is_some()
}

/// Returns the number of the destination that a cell names, or `Name` if it names none.
pub fn destination_number(formulas: &[NamedFormula], cell: &[u8]) -> Result<u8, PlanFaultKind>
    requires { length formulas.now ≤ MAX_DESTINATIONS }
    ensures value { result ≡ number_of (destination_named formulas.now cell.now) }
    ensures there { IfOk result (λ n. n < length formulas.now) }
{
    number_of(formula_place(formulas, cell))
}

fn formula_place(formulas: &[NamedFormula], name: &[u8]) -> Option<usize>
    ensures place { result ≡ destination_named formulas.now name.now }
    ensures within { IfSome result (λ n. n < length formulas.now) }
{
    formulas.iter().position(|formula| formula.name.is(name))
}

/// Returns the number of the resource that a cell names, or `Name` if it names none.
pub fn resource_number(resources: &[Resource], cell: &[u8]) -> Result<u8, PlanFaultKind>
    requires { length resources.now ≤ MAX_RESOURCES }
    ensures value { result ≡ number_of (resource_named resources.now cell.now) }
    ensures there { IfOk result (λ n. n < length resources.now) }
{
    number_of(resource_place(resources, cell))
}

fn resource_place(resources: &[Resource], name: &[u8]) -> Option<usize>
    ensures place { result ≡ resource_named resources.now name.now }
    ensures within { IfSome result (λ n. n < length resources.now) }
{
    resources.iter().position(|resource| resource.name.is(name))
}

// Returns the number of what a cell names, or `Name` if it names nothing.
fn number_of(place: Option<usize>) -> Result<u8, PlanFaultKind>
    requires { IfSome place (λ n. n < 256) }
    ensures value { result ≡ number_of place }
    ensures found { IfOk result (λ n. place ≡ Some n) }
{
    match place {
        Some(number) => Ok(number as u8),
        None => Err(PlanFaultKind::Name),
    }
}

/// Returns the numbers of the destinations that the cells of a `resource` record name, from its third cell on.
///
/// # Errors
///
/// - `Fault`, with `Name`: a cell names no destination.
/// - `OutOfMemory`: memory was refused.
#[tactic(auto, using(crate::proofs::BandSteps::covers_start, crate::proofs::BandSteps::covers_end))]
pub fn covers_in(
    alloc: Global,
    cells: &Cells,
    formulas: &[NamedFormula],
) -> Result<Covers, OrMemory<PlanFaultKind>>
    requires some { 3 ≤ length cells.now }
    requires few { length formulas.now ≤ MAX_DESTINATIONS }
    ensures value { Gives (λ covers. covers) result
        (covers_in formulas.now (drop 2 cells.now)) }
    ensures there { IfOk result (λ covers. All (λ n. n < length formulas.now) covers) }
    ensures each { IfOk result (λ covers. length covers ≡ length cells.now - 2) }
{
    let mut covers = Vec::new(alloc);
    for place in 2..cells.len() {
        let number = destination_number(formulas, cells.at(place))?;
        covers.push(number)?;
    }
    Ok(Covers::new(covers))
}

/// Returns whether a number appears twice.
pub fn has_repeat(numbers: &[u8]) -> bool
    ensures { result ≡ has_repeat numbers.now }
{
    let mut rest = numbers;
    while let [first, more @ ..] = rest {
        if more.contains(first) {
            return true;
        }
        rest = more;
    }
    false
}
