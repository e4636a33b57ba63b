//! The fields of a line: the bytes between blanks.

ghost use Rattle.std.specs.Prelude.{◌≡◌, ◌<◌, ◌≤◌, ◌∷◌, ◌*◌, ◌^◌, ◌==◌, [], not, pos, length, nat_lt, position, IfOk, IfSome, MatchOption};
ghost use Rattle.std.specs.List.{position_or_len};
ghost use Rattle.pit_units.specs.DecimalRange.{IsInDecimalRange};
ghost use Rattle.records.specs.Cells.{is_blank};
ghost use Rattle.text_lines.specs.FieldValues.{Takes, first_by, kind_by};
ghost use Rattle.text_lines.specs.StatedFields.{decimal_in, size_in, below_in};
ghost use Rattle.text_lines.specs.TextLines.{fields_of, is_ended};
ghost use Rattle.text_lines.specs.inner.Taken.{TakesDecimal};

use crate::field_values::{below_in, decimal_in, size_in};
use crate::text_fault::TextKind;
use pit_units::{after, leading_dec, leading_integer};
use records::cells::{is_blank, without_leading_blanks};

/// Returns the first field of a line and the bytes after it, or `None` if the line has no field.
#[inline(always)]
pub fn next_field(line: &[u8]) -> Option<(&[u8], &[u8])>
    ensures cut { MatchOption result (fields_of line.now ≡ [])
        (λ x. fields_of line.now ≡ x.0.now ∷ fields_of x.1.now) }
    ensures less { IfSome result (λ x. length x.1.now < length line.now) }
{
    let text = without_leading_blanks(line);
    if text.is_empty() {
        return None;
    }
    let end = field_end(text);
    Some((&text[..end], after(text, end)))
}

#[inline(always)]
#[tactic(auto, using(crate::proofs::Cuts::place_or_length, crate::proofs::Cuts::place_within))]
fn field_end(text: &[u8]) -> usize
    ensures value { result ≡ position_or_len is_blank text.now }
    ensures within { result ≤ length text.now }
{
    blank_place(text).unwrap_or(text.len())
}

#[inline(always)]
fn blank_place(text: &[u8]) -> Option<usize>
    ensures { result ≡ position is_blank text.now }
{
    text.iter().position(|byte| is_blank(*byte))
}

/// Returns the number of fields of a line.
pub fn count_fields(line: &[u8]) -> usize
    ensures { result ≡ length (fields_of line.now) }
{
    let mut count = 0;
    let mut rest = line;
    while let Some((_, following)) = next_field(rest) {
        count += 1;
        rest = following;
    }
    count
}

/// Returns the error of a line with the error `met` in its fields: `met` if the line has `width` fields, else `Fields`.
#[inline(never)]
pub fn fault_kind_of_line(line: &[u8], width: usize, met: TextKind) -> TextKind
    ensures { result ≡ kind_by (length (fields_of line.now) == width) met }
{
    if count_fields(line) == width {
        met
    } else {
        TextKind::Fields
    }
}

/// Returns whether a line has fewer than two fields. Does not look at the bytes after the second.
pub fn lacks_two_fields(line: &[u8]) -> bool
    ensures { result ≡ nat_lt (length (fields_of line.now)) 2 }
{
    match next_field(line) {
        Some((_, following)) => next_field(following).is_none(),
        None => true,
    }
}

/// Returns whether a line has a field.
#[inline(always)]
#[tactic(auto, using(crate::proofs::LeadingFields::none_past_blanks))]
pub fn has_field(line: &[u8]) -> bool
    ensures { result ≡ not (length (fields_of line.now) == 0) }
{
    !without_leading_blanks(line).is_empty()
}

/// Returns the integer in the first field, if it is below `limit`, and the bytes after the field.
///
/// # Errors
///
/// `Fields` if the line has no field, else fails like `below_in`.
#[inline(always)]
#[tactic(auto, using(crate::proofs::LeadingFields::whole_taken, crate::proofs::LeadingFields::whole_refused))]
pub fn first_integer(line: &[u8], limit: u64) -> Result<(u64, &[u8]), TextKind>
    ensures value { Takes result (first_by (below_in limit) (fields_of line.now)) }
    ensures below { IfOk result (λ x. x.0 < limit) }
{
    match leading_integer_field(line) {
        Some((number, following)) => {
            if number < limit {
                Ok((number, following))
            } else {
                Err(TextKind::Range)
            }
        }
        None => any_whole(line, limit),
    }
}

/// Returns the millionths of the number in the first field, which must have at most `decimals` decimals and be from 0 to `most`
/// millionths, and the bytes after the field.
///
/// # Errors
///
/// `Fields` if the line has no field, else fails like `size_in`.
#[inline(always)]
#[tactic(auto, using(crate::proofs::LeadingFields::size_taken, crate::proofs::LeadingFields::size_refused))]
pub fn first_size(line: &[u8], decimals: u8, most: u64) -> Result<(u64, &[u8]), TextKind>
    requires { decimals ≤ 6 }
    ensures value { Takes result (first_by (size_in decimals most) (fields_of line.now)) }
    ensures in_range { IfOk result (λ x. x.0 ≤ most) }
{
    match leading_dec_field(line, decimals) {
        Some((millionths, following)) => {
            let size = millionths.unsigned_abs();
            if 0 <= millionths && size <= most {
                Ok((size, following))
            } else {
                Err(TextKind::Range)
            }
        }
        None => any_size(line, decimals, most),
    }
}

/// Returns the millionths of the decimal in the first field, and the bytes after the field.
///
/// # Errors
///
/// `Fields` if the line has no field, else fails like `decimal_in`.
#[inline(always)]
#[tactic(auto, using(crate::proofs::LeadingFields::decimal_taken))]
pub fn first_millionths(line: &[u8]) -> Result<(i128, &[u8]), TextKind>
    ensures value { Takes result (first_by decimal_in (fields_of line.now)) }
    ensures in_range { IfOk result (λ x. IsInDecimalRange x.0) }
{
    match leading_dec_field(line, 6) {
        Some((millionths, following)) => Ok((i128::from(millionths), following)),
        None => any_millionths(line),
    }
}

// Returns the first field as an integer, if it has only digits and not too many; `None` means nothing about it.
#[inline(always)]
#[tactic(auto, using(crate::proofs::LeadingFields::field_leads))]
fn leading_integer_field(line: &[u8]) -> Option<(u64, &[u8])>
    ensures { IfSome result (λ x. TakesDecimal 0 line.now (pos (x.0 * 10 ^ 6)) x.1.now) }
{
    let (number, following) = leading_integer(without_leading_blanks(line))?;
    if !is_ended(following) {
        return None;
    }
    Some((number, following))
}

// Returns the millionths of the first field, if it is a decimal in the usual form; `None` means nothing about it.
#[inline(always)]
#[tactic(auto, using(crate::proofs::LeadingFields::field_leads))]
fn leading_dec_field(line: &[u8], decimals: u8) -> Option<(i64, &[u8])>
    requires { decimals ≤ 6 }
    ensures { IfSome result (λ x. TakesDecimal decimals line.now x.0 x.1.now) }
{
    let (millionths, following) = leading_dec(without_leading_blanks(line), decimals)?;
    if !is_ended(following) {
        return None;
    }
    Some((millionths, following))
}

// Returns whether a field ends before these bytes.
#[inline(always)]
fn is_ended(bytes: &[u8]) -> bool
    ensures { result ≡ is_ended bytes.now }
{
    match bytes {
        [first, ..] => is_blank(*first),
        [] => true,
    }
}

#[inline(never)]
fn any_whole(line: &[u8], limit: u64) -> Result<(u64, &[u8]), TextKind>
    ensures value { Takes result (first_by (below_in limit) (fields_of line.now)) }
    ensures below { IfOk result (λ x. x.0 < limit) }
{
    match next_field(line) {
        Some((field, following)) => Ok((below_in(field, limit)?, following)),
        None => Err(TextKind::Fields),
    }
}

#[inline(never)]
fn any_size(line: &[u8], decimals: u8, most: u64) -> Result<(u64, &[u8]), TextKind>
    requires { decimals ≤ 6 }
    ensures value { Takes result (first_by (size_in decimals most) (fields_of line.now)) }
    ensures in_range { IfOk result (λ x. x.0 ≤ most) }
{
    match next_field(line) {
        Some((field, following)) => Ok((size_in(field, decimals, most)?, following)),
        None => Err(TextKind::Fields),
    }
}

#[inline(never)]
fn any_millionths(line: &[u8]) -> Result<(i128, &[u8]), TextKind>
    ensures value { Takes result (first_by decimal_in (fields_of line.now)) }
    ensures in_range { IfOk result (λ x. IsInDecimalRange x.0) }
{
    match next_field(line) {
        Some((field, following)) => Ok((decimal_in(field)?.millionths(), following)),
        None => Err(TextKind::Fields),
    }
}
