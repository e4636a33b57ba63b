//! The bands in the cells of a `leach` record.

ghost use Rattle.std.specs.Prelude.{◌≡◌, ◌+◌, ◌-◌, ◌/◌, ◌%◌, ◌^◌, ◌<◌, ◌≤◌, drop, length, All, IfOk};
ghost use Rattle.pit_units.specs.OrMemory.{Gives};
ghost use Rattle.plan_parts.specs.formulas.BandsInvariant.{IsBand};
ghost use Rattle.pit_model.specs.DestinationRecords.{band_in, bands_in};

use crate::cells::Cells;
use crate::numbers::{integer_in, number_in};
use crate::plan_fault::PlanFaultKind;
use pit_units::OrMemory;
use plan_parts::formulas::band::Band;
use plan_parts::ranges::{MAX_GRADE, MAX_RECOVERY};
use std::alloc::Global;

// Returns the band that two cells state.
fn band_in(start: &[u8], recovery: &[u8]) -> Result<Band, PlanFaultKind>
    ensures value { result ≡ band_in start.now recovery.now }
    ensures in_range { IfOk result IsBand }
{
    let start = number_in(start, 6, 0, i128::from(MAX_GRADE))?;
    let recovery = integer_in(recovery, 0, u32::from(MAX_RECOVERY))?;
    Ok(Band {
        start: start.millionths() as u64,
        recovery: recovery as u16,
    })
}

/// Returns the bands of a record, from its fifth cell on. The record must have an even number of cells, at least 6.
///
/// # Errors
///
/// - `Fault`: a cell states no start or recovery; with the kind of the first such cell.
/// - `OutOfMemory`: memory was refused.
#[tactic(auto, using(crate::proofs::BandSteps::bands_start, crate::proofs::BandSteps::bands_end))]
pub fn bands_in(alloc: Global, cells: &Cells) -> Result<Vec<Band>, OrMemory<PlanFaultKind>>
    requires pairs { length cells.now % 2 ≡ 0 }
    requires some { 6 ≤ length cells.now }
    ensures reads { Gives (λ bands. bands.items) result (bands_in (drop 4 cells.now)) }
    ensures in_range { IfOk result (λ bands. All IsBand bands.items) }
    ensures counted { IfOk result (λ bands. length bands.items ≡ length cells.now / 2 - 2) }
{
    let mut bands = Vec::new(alloc);
    for pair in 2..cells.len() / 2 {
        let band = band_in(cells.at(2 * pair), cells.at(2 * pair + 1))?;
        bands.push(band)?;
    }
    Ok(bands)
}
