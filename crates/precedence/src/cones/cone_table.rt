//! The table of a cone.

ghost use Rattle.std.specs.Prelude.{◌≡◌, ◌^◌};
ghost use Rattle.precedence.specs.inner.Outside.{AreNoWider};
ghost use Rattle.precedence.specs.inner.Rows.{pasts, LieApart};
ghost use Rattle.precedence.specs.inner.RowsOnce.{LieApart-prop};

use crate::cones::cone_rows::{Row, Widths};
use plan_parts::cone::Cone;

/// The rows of a cone.
#[derive(Debug, Drop)]
pub struct ConeTable {
    pub cone: Cone,
    pub rows: Vec<Row>,
    /// The end of each row (exclusive).
    pub past: Vec<u64>,
    /// The first row of each bench: a guess.
    pub benches: Vec<usize>,
    pub widths: Widths,
    /// The number of rows in the tables before, at which the hints for this table's rows start.
    pub start: usize,
    pub ghost in_order: { LieApart 0 rows.items (10 ^ 15) } by { LieApart-prop 0 rows.items (10 ^ 15) },
    pub ghost all_past: { past.items ≡ pasts rows.items },
    pub ghost no_wider: { AreNoWider widths rows.items },
}
