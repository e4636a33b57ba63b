//! The lines of limits in a model file.

ghost use Rattle.std.specs.Prelude.{◌≡◌};
ghost use Rattle.plan_parts.specs.PlanInvariant.{stands_before};
ghost use Rattle.text_lines.specs.FieldValues.{Takes, first_by};
ghost use Rattle.text_lines.specs.TextLines.{fields_of};
ghost use Rattle.minelib_reading.specs.LineFields.{item_in, letter_in};
ghost use Rattle.minelib_reading.specs.LineForms.{bound_form, limit_form};
ghost use Rattle.minelib_reading.specs.ModelDraft.{is_after, last_of};
ghost use Rattle.minelib_reading.specs.ModelText.{limit_stated, limit_width};

use crate::model::key_lines::is_exactly;
use pit_units::Dec;
use plan_parts::limit::{Bound, Limit};
use text_lines::text_fault::TextKind;
use text_lines::text_fields::{
    fault_kind_of_line, first_integer, first_millionths, has_field, next_field,
};

/// The letter of a limit.
#[derive(Clone, Copy, Debug, PartialEq, Eq)]
pub enum LimitLetter {
    /// At most a number.
    L,
    /// At least a number.
    G,
    /// From one number to another.
    I,
}

/// Returns the limit of a line, for these numbers of resources and periods.
///
/// # Errors
///
/// `Fields`, or the kind of the first invalid field.
#[tactic(auto, using(crate::proofs::counts::LaterLines::limit_counted, crate::proofs::counts::LaterLines::limit_kind))]
pub fn limit_of_line(resources: u8, periods: u8, line: &[u8]) -> Result<Limit, TextKind>
    ensures { result ≡ limit_stated resources periods (fields_of line.now) }
{
    match uncounted_limit(resources, periods, line) {
        Ok(limit) => Ok(limit),
        Err(kind) => Err(fault_kind_of_line(line, limit_width(line), kind)),
    }
}

// Returns the limit of a line that has the required number of fields. For other lines, the kind of the fault may differ.
fn uncounted_limit(resources: u8, periods: u8, line: &[u8]) -> Result<Limit, TextKind>
    ensures { result ≡ item_in (limit_form resources periods) (fields_of line.now) }
{
    let (resource, after_resource) = first_integer(line, u64::from(resources))?;
    let (period, after_period) = first_integer(after_resource, u64::from(periods))?;
    let (letter, after_letter) = first_letter(after_period)?;
    let (first, rest) = first_millionths(after_letter)?;
    let first = Dec::new(first).unwrap();
    limit_with(resource as u8, period as u8, letter, first, rest)
}

fn first_letter(line: &[u8]) -> Result<(LimitLetter, &[u8]), TextKind>
    ensures { Takes result (first_by letter_in (fields_of line.now)) }
{
    match next_field(line) {
        Some((field, following)) => Ok((letter_in(field)?, following)),
        None => Err(TextKind::Fields),
    }
}

fn letter_in(field: &[u8]) -> Result<LimitLetter, TextKind>
    ensures { result ≡ letter_in field.now }
{
    if is_exactly(field, b"L") {
        Ok(LimitLetter::L)
    } else if is_exactly(field, b"G") {
        Ok(LimitLetter::G)
    } else if is_exactly(field, b"I") {
        Ok(LimitLetter::I)
    } else {
        Err(TextKind::Name)
    }
}

// Returns the limit with these fields, and for an interval its second number, the only field in `rest`.
fn limit_with(
    resource: u8,
    period: u8,
    letter: LimitLetter,
    first: Dec,
    rest: &[u8],
) -> Result<Limit, TextKind>
    ensures { result ≡ item_in (bound_form resource period letter first) (fields_of rest.now) }
{
    let (bound, end) = match letter {
        LimitLetter::L => (Bound::AtMost(first), rest),
        LimitLetter::G => (Bound::AtLeast(first), rest),
        LimitLetter::I => {
            let (second, end) = first_millionths(rest)?;
            (Bound::Between(first, Dec::new(second).unwrap()), end)
        }
    };
    if has_field(end) {
        return Err(TextKind::Fields);
    }
    Ok(Limit {
        resource,
        period,
        bound,
    })
}

// Returns the number of fields that a limit must have: 5 for an interval, else 4.
fn limit_width(line: &[u8]) -> usize
    ensures { result ≡ limit_width (fields_of line.now) }
{
    let Some((_, after_resource)) = next_field(line) else {
        return 4
    };
    let Some((_, after_period)) = next_field(after_resource) else {
        return 4
    };
    match next_field(after_period) {
        Some((letter, _)) if is_exactly(letter, b"I") => 5,
        _ => 4,
    }
}

/// Returns whether the limit follows the last of others.
pub fn is_limit_after(limits: &[Limit], limit: &Limit) -> bool
    ensures { result ≡ is_after stands_before (last_of limits.now) limit.now }
{
    match limits.last() {
        Some(last) => last.stands_before(limit),
        None => true,
    }
}
