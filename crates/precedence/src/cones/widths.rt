//! The widths and ends of a cone's rows.

ghost use Rattle.std.specs.Prelude.{◌≡◌, ◌<◌, ◌≤◌, ◌^◌, IfOk};
ghost use Rattle.precedence.specs.inner.Outside.{middle, AreNoWider};
ghost use Rattle.precedence.specs.inner.Rows.{pasts};

use crate::cones::cone_rows::{Row, Widths};
use crate::places::code::ROW;
use std::alloc::{AllocError, Global};

/// Returns widths that no given row exceeds; the rows may be parts of rows.
pub fn widths_of(rows: &[Row]) -> Widths
    ensures { AreNoWider result rows.now }
{
    let mut west = 0;
    let mut east = 0;
    for row in rows {
        let middle = middle_of(row.past);
        west = greater(west, middle.saturating_sub(row.first));
        east = greater(east, row.past.saturating_sub(middle));
    }
    Widths { west, east }
}

/// Returns the end of each row. Fails only if memory is refused.
pub fn pasts_of(alloc: Global, rows: &[Row]) -> Result<Vec<u64>, AllocError>
    ensures { IfOk result (λ past. past.items ≡ pasts rows.now) }
{
    rows.iter().map(|row| row.past).collect(alloc)
}

fn middle_of(past: u64) -> u64
    requires { past < 10 ^ 15 }
    ensures { result ≡ middle past }
{
    (past + ROW / 2) / ROW * ROW
}

fn greater(one: u64, other: u64) -> u64
    ensures one { one ≤ result }
    ensures other { other ≤ result }
{
    if one < other { other } else { one }
}
