//! The keys of a plan's records.

ghost use Rattle.std.specs.Prelude.{◌≡◌};
ghost use Rattle.pit_model.specs.PlanKeys.{key_of};

use crate::draft::{FormulaKey, formula_key_of};
use records::cells::is_word;

/// The subject of a plan's record, which its first cell names.
#[derive(Clone, Copy, Debug, PartialEq, Eq)]
pub enum PlanKey {
    Name,
    Grid,
    Zone,
    Destination(FormulaKey),
    Periods,
    Rate,
    Resource,
    Limit,
}

/// Returns the key that a cell is, in upper or lower case.
pub fn key_of(cell: &[u8]) -> Option<PlanKey>
    ensures { result ≡ key_of cell.now }
{
    if is_word(cell, b"name") {
        Some(PlanKey::Name)
    } else if is_word(cell, b"grid") {
        Some(PlanKey::Grid)
    } else if is_word(cell, b"zone") {
        Some(PlanKey::Zone)
    } else if is_word(cell, b"periods") {
        Some(PlanKey::Periods)
    } else if is_word(cell, b"rate") {
        Some(PlanKey::Rate)
    } else if is_word(cell, b"resource") {
        Some(PlanKey::Resource)
    } else if is_word(cell, b"limit") {
        Some(PlanKey::Limit)
    } else {
        Some(PlanKey::Destination(formula_key_of(cell)?))
    }
}
