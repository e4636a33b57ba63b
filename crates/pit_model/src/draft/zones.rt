//! The records of zones.

ghost use Rattle.std.specs.Prelude.{◌≡◌, IfOk};
ghost use Rattle.pit_units.specs.OrMemory.{Gives};
ghost use Rattle.plan_parts.specs.PlanInvariant.{IsCone, IsSlope};
ghost use Rattle.pit_model.specs.PlanRecords.{equal_zone, sided_zone, slope_in, zone_more, zone_record};

use crate::cells::Cells;
use crate::draft::Draft;
use crate::numbers::integer_in;
use crate::plan_fault::PlanFaultKind;
use pit_units::OrMemory;
use plan_parts::cone::{Cone, Slope};
use plan_parts::ranges::{MAX_BENCHES, MAX_SLOPE, MAX_ZONES};

impl Draft {
    /// Adds the zone that a record states. Fails like `admit`; after an error the draft is unspecified.
    pub(crate) fn admit_zone(&mut self, cells: &Cells) -> Result<(), OrMemory<PlanFaultKind>>
        ensures { Gives (λ _. self.new) result (zone_record self.old cells.now) }
    {
        match cells.len() {
            4 => self.admit_equal_zone(cells),
            10 => self.admit_sided_zone(cells),
            _ => Err(OrMemory::Fault(PlanFaultKind::Width)),
        }
    }

    // One slope on all sides.
    fn admit_equal_zone(&mut self, cells: &Cells) -> Result<(), OrMemory<PlanFaultKind>>
        ensures { Gives (λ _. self.new) result (equal_zone self.old cells.now) }
    {
        let slope = slope_in(cells.at(1), cells.at(2))?;
        let k = integer_in(cells.at(3), 1, MAX_BENCHES)?;
        self.add_zone(Cone {
            east: slope,
            west: slope,
            north: slope,
            south: slope,
            k: k as u8,
        })
    }

    // A slope for each side.
    fn admit_sided_zone(&mut self, cells: &Cells) -> Result<(), OrMemory<PlanFaultKind>>
        ensures { Gives (λ _. self.new) result (sided_zone self.old cells.now) }
    {
        let east = slope_in(cells.at(1), cells.at(2))?;
        let west = slope_in(cells.at(3), cells.at(4))?;
        let north = slope_in(cells.at(5), cells.at(6))?;
        let south = slope_in(cells.at(7), cells.at(8))?;
        let k = integer_in(cells.at(9), 1, MAX_BENCHES)?;
        self.add_zone(Cone {
            east,
            west,
            north,
            south,
            k: k as u8,
        })
    }

    fn add_zone(&mut self, cone: Cone) -> Result<(), OrMemory<PlanFaultKind>>
        requires { IsCone cone }
        ensures { Gives (λ _. self.new) result (zone_more self.old cone) }
    {
        if self.cones.len() == MAX_ZONES as usize {
            return Err(OrMemory::Fault(PlanFaultKind::TooMany));
        }
        self.cones.push(cone)?;
        Ok(())
    }
}

// Returns the slope with this rise and run.
fn slope_in(rise: &[u8], run: &[u8]) -> Result<Slope, PlanFaultKind>
    ensures value { result ≡ slope_in rise.now run.now }
    ensures in_range { IfOk result IsSlope }
{
    let p = integer_in(rise, 1, MAX_SLOPE)?;
    let q = integer_in(run, 1, MAX_SLOPE)?;
    Ok(Slope {
        p: p as u16,
        q: q as u16,
    })
}
