//! Faults of plans.

use pit_units::{DecFault, OrMemory};
use std::fmt;
use thiserror::Error;

/// What is wrong with a record of a plan. If several kinds apply, the first in this order is reported:
///
/// - `TooMany` for record 10,001, whatever its cells;
/// - `Key`, `Width`;
/// - the numbers and names from left to right, each by `Number`, `TooFine`, `Range` and `Name`;
/// - `Twice`, `Order`, and `TooMany` for other parts.
#[derive(Clone, Copy, Debug, Error, PartialEq, Eq)]
pub enum PlanFaultKind {
    /// The record's first cell is no key.
    Key,
    /// The record has too few or too many cells for its key.
    Width,
    /// A cell is no decimal number.
    Number,
    /// A number has more decimals than its cell allows.
    TooFine,
    /// A number is out of range.
    Range,
    /// A cell is no NAME, names no earlier destination or resource, or is no letter of a limit.
    Name,
    /// The record may appear once and did so before, another destination or resource has the NAME, a resource names a destination
    /// twice, or the resource has a limit in that period.
    Twice,
    /// The starts of bands do not rise, or an interval's lower end is above its upper end.
    Order,
    /// The plan has a part above the maximum: a 65th zone, a 9th destination, a 9th resource, a 17th band, or record 10,001.
    TooMany,
    /// At the end there is no `name`, `grid`, `zone`, destination, `periods` or `rate`.
    Missing,
}

impl fmt::Display for PlanFaultKind {
    ghost use Rattle.std.specs.Prelude.{Some};
    ghost use Rattle.pit_model.specs.FaultText.{plan_kind_name};

    ghost output = { λ kind. Some (plan_kind_name kind) };

    fn fmt<W: fmt::Write>(&self, f: &mut fmt::Formatter<W>) -> fmt::Result {
        f.write_str(match self {
            PlanFaultKind::Key => "Key",
            PlanFaultKind::Width => "Width",
            PlanFaultKind::Number => "Number",
            PlanFaultKind::TooFine => "TooFine",
            PlanFaultKind::Range => "Range",
            PlanFaultKind::Name => "Name",
            PlanFaultKind::Twice => "Twice",
            PlanFaultKind::Order => "Order",
            PlanFaultKind::TooMany => "TooMany",
            PlanFaultKind::Missing => "Missing",
        })
    }
}

impl From<DecFault> for PlanFaultKind {
    ghost use Rattle.std.specs.Prelude.{◌≡◌, Err};
    ghost use Rattle.pit_model.specs.StatedCells.{number_in_cell};

    ghost from_gives = { λ fault kind. Err kind ≡ number_in_cell (Err fault) };

    fn from(fault: DecFault) -> PlanFaultKind {
        match fault {
            DecFault::Number => PlanFaultKind::Number,
            DecFault::TooFine => PlanFaultKind::TooFine,
            DecFault::Range => PlanFaultKind::Range,
        }
    }
}

/// The first invalid record of a plan.
#[derive(Clone, Copy, Debug, Error, PartialEq, Eq)]
pub struct PlanFault {
    /// The number of the record, from 1. If a part is missing, the number of records + 1.
    pub row: u32,
    pub kind: PlanFaultKind,
}

impl fmt::Display for PlanFault {
    ghost use Rattle.std.specs.Prelude.{Some};
    ghost use Rattle.pit_model.specs.FaultText.{plan_fault_text};

    ghost output = { λ fault. Some (plan_fault_text fault) };

    fn fmt<W: fmt::Write>(&self, f: &mut fmt::Formatter<W>) -> fmt::Result {
        let PlanFault { row, kind } = self;
        write!(f, "plan row {row}: {kind}")
    }
}

impl From<PlanFaultKind> for OrMemory<PlanFaultKind> {
    ghost use Rattle.std.specs.Prelude.{◌≡◌};
    ghost use Rattle.pit_units.specs.declared.or_memory.OrMemory.TheVariants.{Fault};

    ghost from_gives = { λ kind error. error ≡ Fault kind };

    fn from(kind: PlanFaultKind) -> OrMemory<PlanFaultKind> {
        OrMemory::Fault(kind)
    }
}
