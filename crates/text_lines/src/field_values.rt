//! The values of fields.

ghost use Rattle.std.specs.Prelude.{◌≡◌, ◌<◌, ◌≤◌, IfOk};
ghost use Rattle.text_lines.specs.StatedFields.{decimal_in, integer_in, size_in, below_in};

use crate::text_fault::TextKind;
use pit_units::{Dec, MILLIONTHS, parse_dec, parse_within};

/// Returns the integer in a field, if it is below `limit`.
///
/// # Errors
///
/// Returns the first that applies: `Number`, `TooFine` or `Range`.
#[tactic(auto, unfolding(crate::specs::StatedFields::below_in))]
#[inline(always)]
pub fn below_in(field: &[u8], limit: u64) -> Result<u64, TextKind>
    ensures value { result ≡ below_in limit field.now }
    ensures below { IfOk result (λ n. n < limit) }
{
    Ok(parse_within(field, 0, 0, i128::from(limit) * MILLIONTHS - 1)?.whole())
}

/// Returns the integer in a field, if it is from `low` to `high`.
///
/// # Errors
///
/// Fails like `below_in`.
pub fn integer_in(field: &[u8], low: u32, high: u32) -> Result<u64, TextKind>
    ensures value { result ≡ integer_in low high field.now }
    ensures in_range { IfOk result (λ n. (low ≤ n) × (n ≤ high)) }
{
    let low = i128::from(low) * MILLIONTHS;
    let high = i128::from(high) * MILLIONTHS;
    Ok(parse_within(field, 0, low, high)?.whole())
}

/// Returns the millionths of the number in a field, which must have at most `decimals` decimals (further zeros do not count) and be from
/// 0 to `most` millionths.
///
/// # Errors
///
/// Fails like `below_in`.
#[tactic(auto, unfolding(crate::specs::StatedFields::size_in))]
#[inline(always)]
pub fn size_in(field: &[u8], decimals: u8, most: u64) -> Result<u64, TextKind>
    requires { decimals ≤ 6 }
    ensures value { result ≡ size_in decimals most field.now }
    ensures in_range { IfOk result (λ m. m ≤ most) }
{
    Ok(parse_within(field, decimals, 0, i128::from(most))?.millionths() as u64)
}

/// Returns the decimal in a field.
///
/// # Errors
///
/// Fails like `below_in`, with the range of all decimals.
#[tactic(auto, unfolding(crate::specs::StatedFields::decimal_in))]
pub fn decimal_in(field: &[u8]) -> Result<Dec, TextKind>
    ensures { result ≡ decimal_in field.now }
{
    Ok(parse_dec(field, 6)?)
}
